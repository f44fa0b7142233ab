// Making a planner, and the calls that change its sheet. A granted one takes the standing split away; a refused one changes nothing.
ghost use Rattle.std.specs.Prelude.{◌≡◌, List, [], ◌∷◌, Ok, IfOk};
ghost use Rattle.refusals.specs.Told.{outcome};
ghost use Rattle.sheet.specs.Nets.{size, empty};
ghost use Rattle.sheet_layout.specs.Bodies.{file_refusal, net_of};
ghost use Rattle.sheet_layout.specs.Layout.{LaidOut};
ghost use Rattle.sheet.specs.Changes.{changed, add_refusal, added, join_refusal, joined, retime_refusal, retimed, count_refusal, counted};

use super::Planner;
use device::Kind;
use refusals::Refusal;
use scale::Scale;
use sheet::{Operator, Sheet};

impl<K: Kind, L: Kind, S: Scale> Planner<K, L, S> {
    ghost use Rattle.planner.specs.declared.calls.Call.TheVariants.{Add, Join, Retime, Count, Load, Clear};
    ghost use Rattle.planner.specs.declared.calls.Granted.TheVariants.{Changed};
    ghost use Rattle.planner.specs.Views.{state, kinds_in, rules_in};
    ghost use Rattle.planner.specs.States.{fresh, edited};
    ghost use Rattle.planner.specs.Law.{Event, event, by_number, by_grant, Holds};

    // A planner without operators, edges, devices and a standing split.
    pub fn new(first: K, second: L, scale: S) -> Planner<K, L, S>
        ensures value { state result ≡ fresh first second scale }
        ensures law { Holds (kinds_in result) (rules_in result) [] (state result) }
    {
        Planner {
            sheet: Sheet::new(),
            first,
            second,
            scale,
            standing: None,
        }
    }

    // Appends an operator and answers its number.
    #[tactic(auto, using(crate::proofs::Laws::after_add))]
    pub fn add(&mut self, operator: Operator) -> Result<usize, Refusal>
        ensures refuses { outcome result ≡ add_refusal (state self.old).net operator }
        ensures value { IfOk result (λ v. v ≡ size (state self.old).net) }
        ensures changes { state self.new ≡ changed (outcome result) (state self.old) (edited (added (state self.old).net operator) (state self.old)) }
        ensures law { (h : List (Event S.Rating)) → Holds (kinds_in self.old) (rules_in self.old) h (state self.old) → Holds (kinds_in self.old) (rules_in self.old) (event (Add operator) (by_number result) ∷ h) (state self.new) }
    {
        let v = self.sheet.add(operator)?;
        self.standing = None;
        Ok(v)
    }

    // Adds an edge from one operator to another.
    #[tactic(auto, using(crate::proofs::Laws::after_join))]
    pub fn join(&mut self, from: usize, to: usize) -> Result<(), Refusal>
        ensures refuses { outcome result ≡ join_refusal (state self.old).net from to }
        ensures changes { state self.new ≡ changed (outcome result) (state self.old) (edited (joined (state self.old).net from to) (state self.old)) }
        ensures law { (h : List (Event S.Rating)) → Holds (kinds_in self.old) (rules_in self.old) h (state self.old) → Holds (kinds_in self.old) (rules_in self.old) (event (Join from to) (by_grant result) ∷ h) (state self.new) }
    {
        self.sheet.join(from, to)?;
        self.standing = None;
        Ok(())
    }

    // Gives an operator other figures.
    #[tactic(auto, using(crate::proofs::Laws::after_retime))]
    pub fn retime(&mut self, v: usize, figures: &Operator) -> Result<(), Refusal>
        ensures refuses { outcome result ≡ retime_refusal (state self.old).net v figures.now }
        ensures changes { state self.new ≡ changed (outcome result) (state self.old) (edited (retimed (state self.old).net v figures.now) (state self.old)) }
        ensures law { (h : List (Event S.Rating)) → Holds (kinds_in self.old) (rules_in self.old) h (state self.old) → Holds (kinds_in self.old) (rules_in self.old) (event (Retime v figures.now) (by_grant result) ∷ h) (state self.new) }
    {
        self.sheet.retime(v, figures)?;
        self.standing = None;
        Ok(())
    }

    // Sets how many devices of each kind there are.
    #[tactic(auto, using(crate::proofs::Laws::after_count))]
    pub fn count(&mut self, k: u8, l: u8) -> Result<(), Refusal>
        ensures refuses { outcome result ≡ count_refusal k l }
        ensures changes { state self.new ≡ changed (outcome result) (state self.old) (edited (counted (state self.old).net k l) (state self.old)) }
        ensures law { (h : List (Event S.Rating)) → Holds (kinds_in self.old) (rules_in self.old) h (state self.old) → Holds (kinds_in self.old) (rules_in self.old) (event (Count k l) (by_grant result) ∷ h) (state self.new) }
    {
        self.sheet.count(k, l)?;
        self.standing = None;
        Ok(())
    }

    // Replaces the sheet by that of a file, which is judged whole before anything changes.
    #[tactic(auto, using(crate::proofs::Laws::after_load))]
    pub fn load(&mut self, file: &[u8]) -> Result<(), Refusal>
        ensures refuses { outcome result ≡ file_refusal file.now }
        ensures changes { state self.new ≡ changed (outcome result) (state self.old) (edited (net_of file.now) (state self.old)) }
        ensures says { IfOk result (λ _. LaidOut file.now (state self.new).net) }
        ensures law { (h : List (Event S.Rating)) → Holds (kinds_in self.old) (rules_in self.old) h (state self.old) → Holds (kinds_in self.old) (rules_in self.old) (event (Load file.entry) (by_grant result) ∷ h) (state self.new) }
    {
        // for its contract: a file says one sheet, that of its entries
        sheet_layout::laws_stand();
        self.sheet = sheet_file::load(file)?;
        self.standing = None;
        Ok(())
    }

    // Makes the planner as new; its kinds and its scale stay.
    #[tactic(auto, using(crate::proofs::Laws::after_clear))]
    pub fn clear(&mut self)
        ensures changes { state self.new ≡ edited empty (state self.old) }
        ensures law { (h : List (Event S.Rating)) → Holds (kinds_in self.old) (rules_in self.old) h (state self.old) → Holds (kinds_in self.old) (rules_in self.old) (event Clear (Ok Changed) ∷ h) (state self.new) }
    {
        self.sheet = Sheet::new();
        self.standing = None;
    }
}
