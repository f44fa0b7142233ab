// Worked examples that a reader can follow by hand, as one list, and that each of them is right.
#![tactic(auto)]

ghost use Rattle.std.specs.List.{All};
ghost use Rattle.cases.specs.Cases.{Right, cases};

// Every example of the list is right.
pub fn cases_stand()
    ensures { All Right cases }
{}
