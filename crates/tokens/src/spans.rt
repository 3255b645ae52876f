// Runs of bytes.
ghost use Rattle.std.specs.Prelude.{◌≡◌, ℕ, ◌≤◌, Bool, length};
ghost use Rattle.std.specs.List.{prefix_len};

// How many bytes in front pass a test.
pub(crate) fn run_len<F: Fn(u8) -> bool>(bytes: &[u8], test: F) -> usize
    requires { F.IsAlwaysCallable test }
    ensures value { (holds : ℕ → Bool) → ((b : ℕ) (r : Bool) → F.post test b r → r ≡ holds b) → result ≡ prefix_len holds bytes.now }
    ensures bound { result ≤ length bytes.now }
{
    bytes.iter().take_while(|b| test(**b)).count()
}
