// Calls as data, for who keeps a list of them.
ghost use Rattle.std.specs.Prelude.{◌≡◌};
ghost use Rattle.runs.specs.Calls.{Lasting};
ghost use Rattle.runs.specs.Feeding.{answer};
ghost use Rattle.runs.specs.Recorders.{call_refusal, cells_after, meaning_after};

use super::offer::Offer;
use super::recorder::Recorder;
use super::refusal::Refusal;

#[derive(Clone, Copy, PartialEq, Eq, Debug)]
pub enum Call<'a> {
    Feed(Offer<'a>),
    Close,
}

// Carries out one call. Whatever calls follow, this one among them, the states only grow, a closed run no longer changes and the lead only falls.
// A kind that is matched, and no closure: who keeps a list of calls copies and compares them.
#[tactic(auto, using(crate::proofs::LastingRuns::lasting))]
pub fn carry_out<R: Recorder>(recorder: &mut R, call: Call<'_>) -> Result<(), Refusal>
    ensures answer { result ≡ answer (call_refusal R.Recorder recorder.old call.entry) }
    ensures after { R.meaning recorder.new ≡ meaning_after R.Recorder recorder.old call.entry }
    ensures cells { R.cells recorder.new ≡ cells_after R.Recorder recorder.old call.entry }
    ensures place { R.place recorder.new ≡ R.place recorder.old }
    ensures law { Lasting R.largest (R.meaning recorder.old) }
{
    match call {
        Call::Feed(offer) => recorder.feed(offer),
        Call::Close => recorder.close(),
    }
}
