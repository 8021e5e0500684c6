// Laws of the meaning. Each is the contract of a function that does nothing.
ghost use Rattle.std.specs.Prelude.{◌≡◌, ◌≤◌, ◌<◌, ◌+◌, ℕ, Bool, true, List, [], ◌∷◌, ◌++◌, length, map, Some};
ghost use Rattle.std.specs.Str.{all_scalars, encode_utf8_all};
ghost use Rattle.cd_elem.specs.Ascii.{newline};
ghost use Rattle.cd_elem.specs.declared.script.Join.TheVariants.{Plain};
ghost use Rattle.cd_elem.specs.declared.script.Pipe.{Pipe};
ghost use Rattle.cd_elem.specs.declared.script.Pipe.TheVariants as pipe;
ghost use Rattle.cd_elem.specs.declared.script.Stmt.{Stmt};
ghost use Rattle.cd_elem.specs.declared.word.ElemWord.{ElemWord};
ghost use Rattle.cd_elem.specs.declared.word.PieceWord.{PieceWord};
ghost use Rattle.cd_elem.specs.declared.word.SplitWord.{SplitWord};
ghost use Rattle.cd_elem.specs.declared.word.Word.{Word};
ghost use Rattle.cd_meaning.specs.Further.{Begins, Further, GoesOn};
ghost use Rattle.cd_meaning.specs.Fusion.{fuse, fuse_asked, fuse_drained, fuse_keep, fuse_return};
ghost use Rattle.cd_meaning.specs.LawfulTrees.{IsLawfulScript, IsLawfulTree};
ghost use Rattle.cd_meaning.specs.Laws.{EachStamp, IsRun, IsStamp, Rising, cut};
ghost use Rattle.cd_meaning.specs.Opens.{ClosesOpen, OpensOnce, closes_of, files_in, openings_at, openings_from, openings_in, opens_of};
ghost use Rattle.cd_meaning.specs.Pipes.{pipe_meaning};
ghost use Rattle.cd_meaning.specs.Places.{bytes_at, place_in, told_whole};
ghost use Rattle.cd_meaning.specs.PlainFusion.{plain_fuse, plain_fuse_asked, plain_fuse_drained, plain_fuse_keep, plain_fuse_return};
ghost use Rattle.cd_meaning.specs.PlainSplitters.{plain_chunks_of, plain_exact, plain_split};
ghost use Rattle.cd_meaning.specs.PlainText.{BeginNone, IsUnfinished, bytes_of, plain_text, refused_behind};
ghost use Rattle.cd_meaning.specs.PlainZips.{plain_merge, plain_zip};
ghost use Rattle.cd_meaning.specs.Run.{Component, Run, effects, stamp};
ghost use Rattle.cd_meaning.specs.Scoped.{IsScoped};
ghost use Rattle.cd_meaning.specs.Scripts.{script_places, script_run, whole_files};
ghost use Rattle.cd_meaning.specs.Sections.{sequence};
ghost use Rattle.cd_meaning.specs.Splitters.{chunks_of, exact, split};
ghost use Rattle.cd_meaning.specs.Stream.{Elem, End, Ended, Flow, Halt, Halted, Item, Value};
ghost use Rattle.cd_meaning.specs.Text.{utf8, utf8_lenient};
ghost use Rattle.cd_meaning.specs.Twins.{twin};
ghost use Rattle.cd_meaning.specs.WordMeanings.{element_word, piece_word, split_word, word_meaning};
ghost use Rattle.cd_meaning.specs.RunShapes.{Seen};
ghost use Rattle.cd_meaning.specs.Zips.{merge};

/// The prefix law: what was known of a front is never taken back.
///
/// On a front of the input of which nothing further is known, the run of each word and of each lawful tree is its run on
/// the whole input, whatever follows, cut at that front. The run of a tree depends on what is seen of its own sites alone.
/// Where some sites gave further bytes behind those after which they might go on, the run of each lawful tree and of each
/// lawful script is the earlier run, or begins with all of that but its wait for one of these sites.
pub fn prefix_law()
    ensures words { (w : Word) (flow : Flow) (site : ℕ) (seen : Seen) (xs ys : List Item) (h : Halt) (e : End)
        → (word_meaning w).run flow site seen xs (Halted h) ≡ cut (length xs) h ((word_meaning w).run flow site seen (xs ++ ys) e) }
    ensures trees { (p : Pipe) → IsLawfulTree p → (flow : Flow) (site : ℕ) (seen : Seen) (xs ys : List Item) (h : Halt) (e : End)
        → (pipe_meaning p).run flow site seen xs (Halted h) ≡ cut (length xs) h ((pipe_meaning p).run flow site seen (xs ++ ys) e) }
    ensures own_sites { (p : Pipe) → IsLawfulTree p → (flow : Flow) (site : ℕ) (seen other : Seen)
        → ((k : ℕ) → site ≤ k → k < site + length (pipe_meaning p).places → seen k ≡ other k) → (pipe_meaning p).run flow site seen ≡ (pipe_meaning p).run flow site other }
    ensures sites { (p : Pipe) → IsLawfulTree p → (sites : ℕ → Bool) (seen further : Seen) → Further sites seen further → (flow : Flow) (site : ℕ)
        → GoesOn sites ((pipe_meaning p).run flow site seen) ((pipe_meaning p).run flow site further) }
    ensures scripts { (script : List Stmt) → IsLawfulScript script → (sites : ℕ → Bool) (seen further : Seen) → Further sites seen further
        → Begins sites (script_run script seen) (script_run script further) }
{}

/// The need bound: no part asks for more than one value beyond those that it keeps.
///
/// Along the run of each word and of each lawful tree, on n values, needs never fall; a need is at most one more than the
/// net there, and at most n + 1; a net is at most n, and at most the need.
pub fn need_bound()
    ensures words_rise { (w : Word) (flow : Flow) (site : ℕ) (seen : Seen) (xs : List Item) (e : End) → Rising 0 ((word_meaning w).run flow site seen xs e) }
    ensures words { (w : Word) (flow : Flow) (site : ℕ) (seen : Seen) (xs : List Item) (e : End)
        → EachStamp (IsStamp (length xs)) ((word_meaning w).run flow site seen xs e) }
    ensures trees_rise { (p : Pipe) → IsLawfulTree p → (flow : Flow) (site : ℕ) (seen : Seen) (xs : List Item) (e : End)
        → Rising 0 ((pipe_meaning p).run flow site seen xs e) }
    ensures trees { (p : Pipe) → IsLawfulTree p → (flow : Flow) (site : ℕ) (seen : Seen) (xs : List Item) (e : End)
        → EachStamp (IsStamp (length xs)) ((pipe_meaning p).run flow site seen xs e) }
{}

/// Plain fusion is associative, in acts, values and stamps: of components of which the later two obey the laws, and of
/// trees of which the later two are lawful. `a | b | c` means `(a | b) | c`, and a longer chain is cut in two anywhere.
pub fn weave_associativity()
    ensures components { (a b c : Component) → IsRun b → IsRun c → (xs : List Item) (e : End) → fuse (fuse a b) c xs e ≡ fuse a (fuse b c) xs e }
    ensures grouped { (p q r : Pipe) → IsLawfulTree q → IsLawfulTree r → (flow : Flow) (site : ℕ) (seen : Seen) (xs : List Item) (e : End)
        → (pipe_meaning (pipe.Chain Plain (pipe.Chain Plain (p ∷ q ∷ []) ∷ r ∷ []))).run flow site seen xs e
        ≡ (pipe_meaning (pipe.Chain Plain (p ∷ pipe.Chain Plain (q ∷ r ∷ []) ∷ []))).run flow site seen xs e }
    ensures in_a_row { (p q r : Pipe) → pipe_meaning (pipe.Chain Plain (p ∷ q ∷ r ∷ [])) ≡ pipe_meaning (pipe.Chain Plain (p ∷ pipe.Chain Plain (q ∷ r ∷ []) ∷ [])) }
    ensures halves { (p : Pipe) (ps : List Pipe) (q : Pipe) (qs : List Pipe) → IsLawfulTree (pipe.Chain Plain ps) → IsLawfulTree (pipe.Chain Plain (q ∷ qs))
        → (flow : Flow) (site : ℕ) (seen : Seen) (xs : List Item) (e : End)
        → (pipe_meaning (pipe.Chain Plain (p ∷ ps ++ q ∷ qs))).run flow site seen xs e
        ≡ (pipe_meaning (pipe.Chain Plain (pipe.Chain Plain (p ∷ ps) ∷ pipe.Chain Plain (q ∷ qs) ∷ []))).run flow site seen xs e }
{}

/// Sequences are associative, in acts, values and stamps: of any components, and of any trees. `{ a; b; c }` means
/// `{ { a; b }; c }`, and a longer sequence is cut in two anywhere.
pub fn sequence_associativity()
    ensures components { (a b c : Component) (xs : List Item) (e : End) → sequence (sequence a b) c xs e ≡ sequence a (sequence b c) xs e }
    ensures grouped { (p q r : Pipe) (flow : Flow) (site : ℕ) (seen : Seen) (xs : List Item) (e : End)
        → (pipe_meaning (pipe.Sequence (pipe.Sequence (p ∷ q ∷ []) ∷ r ∷ []))).run flow site seen xs e
        ≡ (pipe_meaning (pipe.Sequence (p ∷ pipe.Sequence (q ∷ r ∷ []) ∷ []))).run flow site seen xs e }
    ensures in_a_row { (p q r : Pipe) → pipe_meaning (pipe.Sequence (p ∷ q ∷ r ∷ [])) ≡ pipe_meaning (pipe.Sequence (p ∷ pipe.Sequence (q ∷ r ∷ []) ∷ [])) }
    ensures halves { (p : Pipe) (ps : List Pipe) (q : Pipe) (qs : List Pipe) (flow : Flow) (site : ℕ) (seen : Seen) (xs : List Item) (e : End)
        → (pipe_meaning (pipe.Sequence (p ∷ ps ++ q ∷ qs))).run flow site seen xs e
        ≡ (pipe_meaning (pipe.Sequence (pipe.Sequence (p ∷ ps) ∷ pipe.Sequence (q ∷ qs) ∷ []))).run flow site seen xs e }
{}

/// Words and forms that have one formula: a word on elements and its twin on pieces (`takeE` and `take`, `lengthE` and
/// `length`, and so on), `lines N` and `split` at the newline, `exactlyE` and `exactly`, `zipConduit` and `zipSink`.
pub fn equal_words()
    ensures twins { (w : ElemWord) (other : PieceWord) → twin w ≡ Some other → element_word w ≡ piece_word other }
    ensures lines { (n : ℕ) → split_word (SplitWord.Lines n) ≡ split_word (SplitWord.Split newline n) }
    ensures sections { (n : ℕ) (p : Pipe) → pipe_meaning (pipe.ExactlyE n p) ≡ pipe_meaning (pipe.Exactly n p) }
    ensures zips { (p q : Pipe) → pipe_meaning (pipe.ZipConduit p q) ≡ pipe_meaning (pipe.ZipSink p q) }
{}

/// Words as the rules say them, by whole lists: for every input, however it ends, their runs are those of the forms that the
/// other laws are proved of.
///
/// `split` cuts the list at each separator, and each line from the left into pieces of N; what stands behind the last
/// separator is a line only where it is not empty. `exact` and `chunksOf` cut the list so. A whole piece comes at its last
/// element, and a shorter one at the separator that ends its line, or at the end. `lines` is `split` at the newline.
///
/// Two parts on one input do what both do by need, at equal need what the first does before what the second does, up to
/// where one goes no further; where both are done, they are done at the larger need. This holds of all runs whose needs never
/// fall and are at most n + 1 on n values, as those of words and lawful trees are.
pub fn plain_forms()
    ensures split { (separator n : ℕ) (xs : List Item) (e : End) → split separator n xs e ≡ plain_split separator n xs e }
    ensures exact { (n : ℕ) (xs : List Item) (e : End) → exact n xs e ≡ plain_exact n xs e }
    ensures chunks_of { (n : ℕ) (xs : List Item) (e : End) → chunks_of n xs e ≡ plain_chunks_of n xs e }
    ensures merges { (n : ℕ) (a b : Run) → Rising 0 a → Rising 0 b → EachStamp (IsStamp n) a → EachStamp (IsStamp n) b → merge n a b ≡ plain_merge n a b }
    ensures zips { (p q : Pipe) → IsLawfulTree p → IsLawfulTree q → (flow : Flow) (site : ℕ) (seen : Seen) (xs : List Item) (e : End)
        → (pipe_meaning (pipe.ZipSink p q)).run flow site seen xs e
        ≡ plain_zip ((pipe_meaning p).run flow site seen) ((pipe_meaning q).run flow (site + length (pipe_meaning p).places) seen) xs e }
{}

/// Fusion as the rules say it, by A[j], which is what stands in a run up to and with its j-th output, and all of it where it
/// has fewer: of any two components.
///
/// The second part's acts stand in their order. Before an act of need j stand those effects of A[j] that are not there yet,
/// and the act has the stamp of A[j], or its own under `|=`. `|+`, `|?`, `|&`, `|<` and sections differ in what becomes of
/// the second part's value: of the last three, the effects of the first part that are not there yet follow, and its ending.
pub fn plain_fusion()
    ensures fuse { (a b : Component) (xs : List Item) (e : End) → fuse a b xs e ≡ plain_fuse a b xs e }
    ensures fuse_keep { (a b : Component) (xs : List Item) (e : End) → fuse_keep a b xs e ≡ plain_fuse_keep a b xs e }
    ensures fuse_return { (list : List Item → Value) (a b : Component) (xs : List Item) (e : End) → fuse_return list a b xs e ≡ plain_fuse_return list a b xs e }
    ensures fuse_asked { (a b : Component) (xs : List Item) (e : End) → fuse_asked a b xs e ≡ plain_fuse_asked a b xs e }
    ensures fuse_drained { (pair : Value → Value → Value) (a b : Component) (xs : List Item) (e : End)
        → fuse_drained pair a b xs e ≡ plain_fuse_drained pair a b xs e }
{}

/// UTF-8 as the rules say it, by characters: on the bytes of a text, `utf8` and `utf8Lenient` give its characters, each at its
/// last byte.
///
/// Behind the characters of a text, `utf8` stops at the first byte with which the bytes since the last character are the front
/// of no character's, or at the end where they are the front of one that is not whole. The offset that it tells is the number
/// of bytes of the characters before.
pub fn plain_utf8()
    ensures text { (cs : List ℕ) → all_scalars cs ≡ true → (e : End) → utf8 (bytes_of cs) e ≡ plain_text cs e }
    ensures lenient { (cs : List ℕ) → all_scalars cs ≡ true → (e : End) → utf8_lenient (bytes_of cs) e ≡ plain_text cs e }
    ensures unfinished { (cs bytes : List ℕ) → all_scalars cs ≡ true → 0 < length bytes → IsUnfinished bytes
        → utf8 (bytes_of cs ++ map Elem bytes) Ended
        ≡ refused_behind cs (stamp (length (encode_utf8_all cs) + length bytes + 1) (length (encode_utf8_all cs) + length bytes)) }
    ensures bad { (cs bytes : List ℕ) (b : ℕ) (more : List ℕ) (e : End) → all_scalars cs ≡ true → IsUnfinished bytes → BeginNone (bytes ++ b ∷ [])
        → utf8 (bytes_of cs ++ map Elem (bytes ++ b ∷ more)) e
        ≡ refused_behind cs (stamp (length (encode_utf8_all cs) + length bytes + 1) (length (encode_utf8_all cs) + length bytes + 1)) }
{}

/// Sites are opened once: each site of a lawful script, in which a name is used only while it stands, is opened at most
/// once, and only where its place has a file, so there are no more openings than such places. It is closed at most once,
/// and only while it is open. The same of each lawful tree at its own sites.
pub fn opens_once()
    ensures once { (script : List Stmt) → IsLawfulScript script → IsScoped script → OpensOnce (script_run script) }
    ensures own { (script : List Stmt) → IsLawfulScript script → IsScoped script → (seen : Seen) (site : ℕ)
        → opens_of site (effects (script_run script seen)) ≤ openings_at (place_in (script_places script) site) }
    ensures few { (script : List Stmt) → IsLawfulScript script → IsScoped script → (seen : Seen)
        → openings_in (effects (script_run script seen)) ≤ files_in (script_places script) }
    ensures closed_once { (script : List Stmt) → IsLawfulScript script → IsScoped script → (seen : Seen) (site : ℕ)
        → closes_of site (effects (script_run script seen)) ≤ 1 }
    ensures closes { (script : List Stmt) → IsLawfulScript script → IsScoped script → (seen : Seen) (site : ℕ) → ClosesOpen site (script_run script seen) }
    ensures trees { (p : Pipe) → IsLawfulTree p → (flow : Flow) (first : ℕ) (seen : Seen) (xs : List Item) (e : End) (site : ℕ)
        → opens_of site (effects ((pipe_meaning p).run flow first seen xs e)) ≤ openings_from site first (pipe_meaning p).places }
    ensures trees_close { (p : Pipe) → IsLawfulTree p → (flow : Flow) (first : ℕ) (seen : Seen) (xs : List Item) (e : End) (site : ℕ)
        → ClosesOpen site ((pipe_meaning p).run flow first seen xs e) }
{}

/// What is seen of whole files is, at each site of a script, the bytes at its place.
pub fn seen_at_places()
    ensures { (files : List ℕ → List ℕ) (input : List ℕ) (limit : ℕ) (script : List Stmt) (site : ℕ)
        → whole_files files input limit script site ≡ told_whole limit (bytes_at files input (place_in (script_places script) site)) }
{}
