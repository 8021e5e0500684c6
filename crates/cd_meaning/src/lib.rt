//! What scripts mean, over whole lists.
#![tactic(auto)]

mod laws;

ghost use Rattle.std.specs.Prelude.{◌≡◌, ◌≤◌, ℕ, List, take};
ghost use Rattle.cd_meaning.specs.Stream.{Value, Done};
ghost use Rattle.cd_meaning.specs.Run.{effects, ending};
ghost use Rattle.cd_meaning.specs.RunShapes.{Seen};
ghost use Rattle.cd_meaning.specs.Scripts.{script_run, standard_output, whole_files};
ghost use Rattle.cd_meaning.specs.TakeForm.{front_effects, front_ending, take_script};

pub use laws::{
    equal_words, need_bound, opens_once, plain_forms, plain_fusion, plain_utf8, prefix_law,
    seen_at_places, sequence_associativity, weave_associativity,
};

/// What `run sourceFile "NAME" | takeE N | stdout;` means, for every name, every N and whatever is seen of the file:
/// what it does, how it ends, and what standard output gets, of what was seen and of whole files.
pub fn take_form()
    ensures does { (name : List ℕ) (seen : Seen) (n : ℕ) → effects (script_run (take_script name n) seen) ≡ front_effects (seen 1).bytes (seen 1).mark n }
    ensures ends { (name : List ℕ) (seen : Seen) (n : ℕ) → ending (script_run (take_script name n) seen) ≡ front_ending (seen 1).bytes (seen 1).mark n }
    ensures puts { (name : List ℕ) (seen : Seen) (n : ℕ) → standard_output (take_script name n) seen ≡ take n (seen 1).bytes }
    ensures whole_puts { (files : List ℕ → List ℕ) (input : List ℕ) (limit : ℕ) (name : List ℕ) (n : ℕ) → n ≤ limit
        → standard_output (take_script name n) (whole_files files input limit (take_script name n)) ≡ take n (files name) }
    ensures whole_ends { (files : List ℕ → List ℕ) (input : List ℕ) (limit : ℕ) (name : List ℕ) (n : ℕ) → n ≤ limit
        → ending (script_run (take_script name n) (whole_files files input limit (take_script name n))) ≡ Done Value.Unit }
{}
