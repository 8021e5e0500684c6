// Laws of the calls of a run. Each is the contract of a function that does nothing.
ghost use Rattle.std.specs.Prelude.{◌≡◌, ◌<◌, ◌≤◌, ℕ, List, [], ◌∷◌, Contains};
ghost use Rattle.cd_meaning.specs.Opens.{OpensOnce, openings_in};
ghost use Rattle.cd_meaning.specs.Run.{Run, effects};
ghost use Rattle.cd_meaning.specs.RunShapes.{Seen};
ghost use Rattle.cd_meaning.specs.Stream.{Open};
ghost use Rattle.cd_world.specs.declared.event.Descriptor.{Descriptor};
ghost use Rattle.cd_world.specs.declared.event.Event.{Event};
ghost use Rattle.cd_scope.specs.Calls.{Call, Opening, acquired, given_of, mark_of, seen};
ghost use Rattle.cd_scope.specs.Cuts.{AreInOrder, reads_of};
ghost use Rattle.cd_scope.specs.Due.{Each, Fits, IsNext, IsReading, Setting};

/// Events are read as calls in one way at most: where each call is the next thing that is meant and is on a descriptor of
/// its site, the events and the meaning tell the sites.
pub fn reading_law()
    ensures { (g : Setting) (m : Seen → Run) (events : List Event) (calls other : List Call) → IsReading g m events calls → IsReading g m events other → calls ≡ other }
{}

/// What is seen of a site depends on the reads of that site alone: on the bytes that they give in all, however these are
/// cut, and on what is told behind them. Calls that fit read no site behind its end.
pub fn cut_independence()
    ensures own { (calls other : List Call) (site : ℕ) → reads_of site calls ≡ reads_of site other → seen calls site ≡ seen other site }
    ensures told { (calls : List Call) → AreInOrder calls → (site : ℕ) → seen calls site ≡ record { bytes = given_of site calls; mark = mark_of site calls } }
    ensures cut { (calls other : List Call) → AreInOrder calls → AreInOrder other → (site : ℕ) → given_of site calls ≡ given_of site other → mark_of site calls ≡ mark_of site other
        → seen calls site ≡ seen other site }
    ensures ordered { (g : Setting) (calls : List Call) → Each (Fits g) calls → AreInOrder calls }
{}

/// Where a meaning opens each site once, a site that it opens next was not opened by the calls before. Where it never opens
/// more than so many, the calls before acquired fewer, so a scope with room for so many has room for one more.
pub fn openings_law()
    ensures fresh { (m : Seen → Run) → OpensOnce m → (calls : List Call) (site : ℕ) → IsNext m calls (Open site ∷ []) → (d : Descriptor) → Contains calls (Opening site d) → ⊥ }
    ensures room { (m : Seen → Run) (most : ℕ) → ((z : Seen) → openings_in (effects (m z)) ≤ most) → (calls : List Call) (site : ℕ) → IsNext m calls (Open site ∷ []) → acquired calls < most }
{}
