// Laws of all machines, and of all tables.
ghost use Rattle.std.specs.Prelude.{◌≡◌, ℕ, false, List, ◌++◌};
ghost use Rattle.field_rows.specs.Rows.{Fault};
ghost use Rattle.vc2_io.specs.Outside.{IsPrefix};
ghost use Rattle.run_theory.specs.Walk.{Machine, Answer, answer_to, due, IsMachine};
ghost use Rattle.run_theory.specs.UnitRuns.{IsRun};
ghost use Rattle.run_theory.specs.Grammar.{Grammar, Waits};
ghost use Rattle.run_theory.specs.Fronts.{Command, Refuses, front_of, front_within, machine_of};
ghost use Rattle.run_theory.specs.GrammarLaws.{IsGrammar, AreFronts};

/// The answer to an input is that of its units, one after another, and no other is.
pub fn each_input_is_one_run<Z, E>()
    ensures found { (machine : Machine Z E) → IsMachine machine → (input : List ℕ)
        → IsRun machine input (answer_to machine input) }
    ensures only { (machine : Machine Z E) → IsMachine machine
        → (input : List ℕ) (answer : Answer E) → IsRun machine input answer
        → answer_to machine input ≡ answer }
{}

/// What is due is never taken back: it begins what is due for more bytes.
pub fn due_is_never_taken_back<Z, E>()
    ensures { (machine : Machine Z E) → IsMachine machine → (bytes more : List ℕ)
        → IsPrefix (due machine bytes) (due machine (bytes ++ more)) }
{}

/// A unit that stands has a byte, lies in the bytes, and is the same unit whatever follows; also of an input that counts up
/// to a limit.
pub fn units_stand_whatever_follows<Z, R, U>()
    ensures whole { (g : Grammar Z R U) → IsGrammar g → AreFronts (front_of g) }
    ensures within { (limit : ℕ) (past : Fault R → Fault R) (g : Grammar Z R U) → IsGrammar g
        → AreFronts (front_within limit past g) }
{}

/// A unit that is refused, and not for a short field, is refused so whatever follows; also of an input that counts up to a
/// limit, where short fields alone are told otherwise behind it.
pub fn refusals_stand_whatever_follows<Z, R, U>()
    ensures whole { (g : Grammar Z R U) → IsGrammar g
        → (z : Z) (bytes more : List ℕ) (fault : Fault R) → g.is_short fault.reason ≡ false
        → front_of g z bytes ≡ Refuses fault → front_of g z (bytes ++ more) ≡ Refuses fault }
    ensures within { (limit : ℕ) (past : Fault R → Fault R) (g : Grammar Z R U) → IsGrammar g
        → ((other : Fault R) → g.is_short other.reason ≡ false → past other ≡ other)
        → (z : Z) (bytes more : List ℕ) (fault : Fault R) → g.is_short fault.reason ≡ false
        → front_within limit past g z bytes ≡ Refuses fault
        → front_within limit past g z (bytes ++ more) ≡ Refuses fault }
{}

/// What settles the unit in front settles it whatever follows: where it waits for more bytes, it does behind fewer.
pub fn settled_stays_settled<Z, R, U>()
    ensures { (g : Grammar Z R U) → IsGrammar g → (z : Z) (bytes more : List ℕ)
        → Waits g z (bytes ++ more) → Waits g z bytes }
{}

/// A command over a table is a machine, so the laws of machines hold of it.
pub fn commands_are_machines<Z, R, U, W, E>()
    ensures { (limit : ℕ) (past : Fault R → Fault R) (g : Grammar Z R U) (first : Z)
        (command : Command Z R U W E) → IsGrammar g
        → IsMachine (machine_of limit past g first command) }
{}
