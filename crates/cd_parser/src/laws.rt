// What the machine is worth. It is the contract of a function that does nothing.
ghost use Rattle.std.specs.Prelude.{◌≡◌, ◌↔◌, List, None, Some};
ghost use Rattle.cd_elem.specs.declared.script.Stmt.{Stmt};
ghost use Rattle.cd_elem.specs.declared.token.Token.{Token};
ghost use Rattle.cd_grammar.specs.Grammar.{IsFront, IsScript};
ghost use Rattle.cd_parser.specs.Machine.{done, state_behind};

/// The machine reads the grammar: by `step` from its start it refuses tokens exactly where no script begins with them, and
/// it stands between two statements exactly behind a script, with the only tree of that script.
pub fn machine_law()
    ensures refused { (tokens : List Token) → (state_behind tokens ≡ None) ↔ (¬ IsFront tokens) }
    ensures scripts { (tokens : List Token) (tree : List Stmt) → (state_behind tokens ≡ Some (done tree)) ↔ IsScript tokens tree }
    ensures only_tree { (tokens : List Token) (tree other : List Stmt) → IsScript tokens tree → IsScript tokens other → tree ≡ other }
{}
