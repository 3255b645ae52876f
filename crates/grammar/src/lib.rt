// The grammar of criteria: which tokens make up a criterion, and which tree they have.
#![tactic(auto)]

ghost use Rattle.grammar.specs.Laws.{Exactly};
ghost use Rattle.grammar.specs.Steps.{Rules};

// Whatever the rules are, a text is read exactly when it has a tree that breaks none, and else refused at the first token at fault.
pub fn reading_is_exact()
    ensures { (rules : Rules) → Exactly rules }
{}
