// Laws of the typing. Each is the contract of a function that does nothing.
ghost use Rattle.std.specs.Prelude.{◌≡◌, ◌≤◌, ℕ, false, List, [], ◌∷◌, ◌+◌, ◌++◌, map, IsTrue, None, Some, is_some, count_by, length, slice_get, option_and_then, ◌⊎◌};
ghost use Rattle.cd_elem.specs.declared.script.Join.{Join};
ghost use Rattle.cd_elem.specs.declared.script.Pipe.{Pipe};
ghost use Rattle.cd_elem.specs.declared.script.Stmt.{Stmt};
ghost use Rattle.cd_elem.specs.declared.word.Word.{Word};
ghost use Rattle.cd_meaning.specs.LawfulTrees.{IsLawfulScript};
ghost use Rattle.cd_meaning.specs.Pipes.{pipe_meaning};
ghost use Rattle.cd_meaning.specs.Places.{place_in};
ghost use Rattle.cd_meaning.specs.Scoped.{IsScoped};
ghost use Rattle.cd_meaning.specs.Scripts.{script_places, statement_places};
ghost use Rattle.cd_types.specs.declared.refusal.Refusal.{Refusal};
ghost use Rattle.cd_types.specs.declared.refusal.RefusalKind.{RefusalKind};
ghost use Rattle.cd_types.specs.Chains.{chain_part, first_type};
ghost use Rattle.cd_types.specs.Fitting.{FitInChain, FitInSequence, Fits};
ghost use Rattle.cd_types.specs.Flows.{Flow, Sort, bound_of, sort_in};
ghost use Rattle.cd_types.specs.Forms.{mark_part};
ghost use Rattle.cd_types.specs.Limits.{site_limit, statement_limit, total_limit};
ghost use Rattle.cd_types.specs.Moments.{AllPass, Moment, Reached, reached_by};
ghost use Rattle.cd_types.specs.Numbering.{ScriptSite, StandFrom, first_site, held_in, is_before, key_named, key_number, moment_sites, numbered, script_sites, seal_named, seal_number, sealed_in, site_number};
ghost use Rattle.cd_types.specs.Parts.{Part, word_part};
ghost use Rattle.cd_types.specs.Sequences.{sequence_part};
ghost use Rattle.cd_types.specs.Sites.{are_apart};
ghost use Rattle.cd_types.specs.Statements.{HasPart, bounds_of, key_names, script_moments, script_types, seal_names, statement_of};
ghost use Rattle.cd_types.specs.Trees.{part};
ghost use Rattle.cd_types.specs.Typing.{HasType, IsRefused, Passed, Refused, judged};
ghost use Rattle.cd_types.specs.WordTypes.{word_fails};

/// Judging a script is finding out whether it has a type, and what is refused first in it.
///
/// Each script is judged, so it has a type or is refused; it never is both, and only one refusal is the first. A refusal names
/// a statement of the script, and a part of it or the statement itself.
pub fn judging()
    ensures passed { (script : List Stmt) (r : Reached) → judged script ≡ Passed r → HasType script }
    ensures reaches { (script : List Stmt) (r : Reached) → judged script ≡ Passed r → reached_by (script_moments script) ≡ r }
    ensures refused { (script : List Stmt) (x : Refusal) → judged script ≡ Refused x → IsRefused script x }
    ensures typed { (script : List Stmt) → HasType script → judged script ≡ Passed (reached_by (script_moments script)) }
    ensures only { (script : List Stmt) (x : Refusal) → IsRefused script x → judged script ≡ Refused x }
    ensures either { (script : List Stmt) → HasType script ⊎ ((x : Refusal) × IsRefused script x) }
    ensures never_both { (script : List Stmt) (x : Refusal) → HasType script → IsRefused script x → ⊥ }
    ensures stands { (script : List Stmt) (x : Refusal) → IsRefused script x → HasPart (script_types script) x.statement x.part }
    ensures unique { (script : List Stmt) (x y : Refusal) → IsRefused script x → IsRefused script y → x ≡ y }
{}

/// A script that has a type is lawful, uses each name only while it stands, no two of its sites clash, and it has no more
/// statements, sites and elements to hold than the limits allow.
pub fn typed_scripts()
    ensures lawful { (script : List Stmt) → HasType script → IsLawfulScript script }
    ensures scoped { (script : List Stmt) → HasType script → IsScoped script }
    ensures apart { (script : List Stmt) → HasType script → IsTrue (are_apart [] (script_places script)) }
    ensures statements { (script : List Stmt) → HasType script → length script ≤ statement_limit }
    ensures few_sites { (script : List Stmt) → HasType script → length (script_places script) ≤ site_limit }
    ensures total { (script : List Stmt) → HasType script → bounds_of (script_types script) ≤ total_limit }
{}

/// What the typing says of sites, bounds and outputs, against the meaning.
///
/// The sites of a script are its places, in their order, and its total is the sum of the bounds of all its parts; the same of a
/// tree. A tree has as many types as parts, and the first is its own. Where no condition fails at a tree for what comes to it,
/// the sort of its output is what its meaning gives. But for the last, no clause asks that a script has a type.
pub fn agreement()
    ensures sites { (script : List Stmt) → (reached_by (script_moments script)).sites ≡ script_places script }
    ensures total { (script : List Stmt) → (reached_by (script_moments script)).total ≡ bounds_of (script_types script) }
    ensures own_sites { (p : Pipe) (s n : ℕ) (f : Flow) → (reached_by ((part p).moments s n f)).sites ≡ (pipe_meaning p).places }
    ensures own_bounds { (p : Pipe) (s n : ℕ) (f : Flow) → (reached_by ((part p).moments s n f)).total ≡ bound_of ((part p).types f) }
    ensures parts { (p : Pipe) (f : Flow) → length ((part p).types f) ≡ (part p).size }
    ensures own_type { (p : Pipe) (f : Flow) → first_type ((part p).types f) ≡ (part p).type f }
    ensures gives { (p : Pipe) (r : Reached) (s n : ℕ) (f : Flow) → AllPass r ((part p).moments s n f) → (pipe_meaning p).gives (sort_in f) ≡ sort_in ((part p).type f).to }
{}

/// What the typing says of the parts in a part, and of the pipe that a statement runs.
///
/// Where nothing fails at a part for what comes to it, nothing fails at the parts in it for what comes to them. The parts of a
/// sequence give values of one sort or nothing, and each but the last is exact where bytes or characters come. In a script
/// that has a type nothing fails at a pipe that is run, for nothing, and it gives nothing.
pub fn parts_fit()
    ensures words { (w : Word) (f : Flow) → Fits f (word_part w) → (k : RefusalKind) → word_fails w f k ≡ false }
    ensures chains { (j : Join) (parts : List Part) (f : Flow) → Fits f (chain_part j parts) → FitInChain f parts }
    ensures sequences { (parts : List Part) (f : Flow) → Fits f (sequence_part parts) → (k : Sort) × FitInSequence k f parts }
    ensures marks { (name : List ℕ) (a : Part) (f : Flow) → Fits f (mark_part name a) → Fits f a }
    ensures runs { (script : List Stmt) (s : ℕ) (p : Pipe) → HasType script → numbered script s ≡ Some (Stmt.Run p) → Fits None (part p) × (((part p).type None).to ≡ None) }
{}

/// What the numbers of sites, seals and keys say.
///
/// The sites of a script with where they stand are its places, in their order, and those of moments are those of the first
/// ones and then those of the others. No two stand at one part: the number there is the number of each. Those of a statement
/// have the numbers behind those of the statements before it. The names of seals and keys are those of its statements, no more than there are
/// statements. In a script that has a type each seal that a statement uses has a number, and so has each key.
pub fn numbering()
    ensures places { (script : List Stmt) → map (λ (site : ScriptSite). site.place) (script_sites script) ≡ script_places script }
    ensures further { (ms ns : List Moment) → moment_sites (ms ++ ns) ≡ moment_sites ms ++ moment_sites ns }
    ensures own_number { (script : List Stmt) (i : ℕ) (site : ScriptSite) → slice_get (script_sites script) i ≡ Some site → site_number script site.statement site.part ≡ Some (i + 1) }
    ensures first { (script : List Stmt) (s : ℕ) → count_by (is_before s) (script_sites script) + 1 ≡ first_site script s }
    ensures stand { (script : List Stmt) (s : ℕ) (statement : Stmt) → numbered script s ≡ Some statement → StandFrom (place_in (script_places script)) (first_site script s) (statement_places statement) }
    ensures within { (script : List Stmt) (s : ℕ) (statement : Stmt) → numbered script s ≡ Some statement → first_site script s + length (statement_places statement) ≤ length (script_places script) + 1 }
    ensures seals { (script : List Stmt) → sealed_in (map statement_of script) ≡ seal_names script }
    ensures keys { (script : List Stmt) → held_in (map statement_of script) ≡ key_names script }
    ensures few_seals { (script : List Stmt) → length (seal_names script) ≤ length script }
    ensures few_keys { (script : List Stmt) → length (key_names script) ≤ length script }
    ensures known_seals { (script : List Stmt) (s : ℕ) → HasType script → is_some (seal_number script s) ≡ is_some (option_and_then seal_named (numbered script s)) }
    ensures known_keys { (script : List Stmt) (s : ℕ) → HasType script → is_some (key_number script s) ≡ is_some (option_and_then key_named (numbered script s)) }
{}

/// In a script that has a type each name is defined once: the number of a seal, and of a key, is how many were defined
/// before it.
pub fn definitions()
    ensures seals { (before more : List Stmt) (name : List ℕ) (p : Pipe) → HasType (before ++ Stmt.Seal name p ∷ more) → seal_number (before ++ Stmt.Seal name p ∷ more) (length before + 1) ≡ Some (length (seal_names before)) }
    ensures keys { (before more : List Stmt) (name file : List ℕ) → HasType (before ++ Stmt.Hold name file ∷ more) → key_number (before ++ Stmt.Hold name file ∷ more) (length before + 1) ≡ Some (length (key_names before)) }
{}
