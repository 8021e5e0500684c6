// How nodes are made.
ghost use Rattle.std.specs.Prelude.{◌≡◌, ◌+◌, ◌==◌, ◌||◌, ℕ, IfOk, List, None, Some, false, true};
ghost use Rattle.cd_elem.specs.Limits.{chunk_limit};
ghost use Rattle.cd_elem.specs.declared.kind.Kind.TheVariants as kind;
ghost use Rattle.cd_elem.specs.declared.kind.Sort.TheVariants as sort;
ghost use Rattle.cd_elem.specs.declared.word.ElemWord.TheVariants as elements;
ghost use Rattle.cd_elem.specs.declared.word.SinkWord.TheVariants as sinks;
ghost use Rattle.cd_elem.specs.declared.word.SourceWord.TheVariants as sources;
ghost use Rattle.cd_elem.specs.declared.word.Word.TheVariants as words;
ghost use Rattle.cd_elemwise.specs.Carried.{HasType, bound_of as bound_of_word, first_state, gives_of, kind_of};
ghost use Rattle.cd_fuse.specs.Follows.{AreInTurn};
ghost use Rattle.cd_fuse.specs.Fuses.{AreBeside};
ghost use Rattle.cd_meaning.specs.Fusion.{fuse};
ghost use Rattle.cd_meaning.specs.Places.{Marks, Place, Reads, ReadsInput, Writes, WritesOutput};
ghost use Rattle.cd_meaning.specs.RunShapes.{Seen};
ghost use Rattle.cd_meaning.specs.Sections.{sequence};
ghost use Rattle.cd_meaning.specs.Sources.{marked};
ghost use Rattle.cd_meaning.proofs.Moves.Fused.{IsGrade};
ghost use Rattle.cd_meaning.specs.Stream.{End, Flow, Item};
ghost use Rattle.cd_meaning.specs.WordMeanings.{word_meaning};
ghost use Rattle.cd_pieces.specs.Carried as pieces;
ghost use Rattle.cd_pieces.specs.Literals as literals;
ghost use Rattle.cd_slices.specs.Chains as slices;
ghost use Rattle.cd_slices.specs.Chains.{HasRange, IsCutter, IsFirst};
ghost use Rattle.cd_slices.specs.Stages as slice_stages;
ghost use Rattle.cd_slices.specs.Stages.{MayJoin};
ghost use Rattle.cd_split.specs.Splitting as splits;
ghost use Rattle.cd_step.specs.Parts.{both_sites, chunk_at, joined, of_pieces, pieces_at, shared, sort_at};
ghost use Rattle.cd_node.specs.Makes.{IsPairOf, IsUnstarted};
ghost use Rattle.cd_node.specs.Nodes.{HasNoTicket};
ghost use Rattle.cd_node.specs.Trees.{IsWell, StandsAt, bound_of, chunks_of, seen};

use crate::control::PairControl;
use crate::mark::Mark;
use crate::node::Node;
use crate::sink::Sink;
use crate::source::Source;
use crate::word::WordStage;
use cd_elem::{ElemWord, Kind, NoMemory, PieceWord, Site, Sort, SourceWord, SplitWord};
use cd_elemwise::elem_stage;
use cd_fuse::{Follow, Fuse};
use cd_pieces::{literal_stage, piece_stage, sink_null};
use cd_slices::{Sieve, SliceEnd, slice_stage};
use cd_split::split_stage;
use std::alloc::Global;

impl Node {
    /// An element word on a stream of this sort.
    pub fn elem(alloc: Global, word: &ElemWord, sort: Sort) -> Result<Node, NoMemory>
        requires { HasType word.now sort }
        ensures well { IfOk result IsWell }
        ensures unstarted { IfOk result (λ n. IsUnstarted (seen n)) }
        ensures gives { IfOk result (λ n. (seen n).gives ≡ gives_of (first_state word.now) sort) }
        ensures takes { IfOk result (λ n. (seen n).takes ≡ Some (kind_of sort)) }
        ensures pieces { IfOk result (λ n. (seen n).grade.pieces ≡ of_pieces (seen n).takes) }
        ensures exact { IfOk result (λ n. (seen n).grade.exact ≡ true) }
        ensures sites { IfOk result (λ n. (t : ℕ) → (seen n).sites t ≡ false) }
        ensures places { IfOk result (λ n. (place : ℕ → Place) → StandsAt n place) }
        ensures bound { IfOk result (λ n. bound_of n ≡ bound_of_word word.now) }
        ensures chunks { IfOk result (λ n. chunks_of n ≡ chunk_at (kind_of sort)) }
        ensures means { IfOk result (λ n. (z : Seen) (site : ℕ) (told : Seen) (xs : List Item) (end : End)
            → (seen n).run z xs end ≡ (word_meaning (words.Elem word.now)).run (Some sort) site told xs end) }
    {
        let stage = elem_stage(alloc, word, sort)?;
        Ok(Node::Word(WordStage::Elem(stage)))
    }

    /// A piece word, where pieces of this kind come to it.
    pub fn piece(alloc: Global, word: &PieceWord, kind: Kind) -> Result<Node, NoMemory>
        requires { pieces.HasType word.now kind }
        ensures well { IfOk result IsWell }
        ensures unstarted { IfOk result (λ n. IsUnstarted (seen n)) }
        ensures gives { IfOk result (λ n. (seen n).gives ≡ pieces.word_gives word.now kind) }
        ensures takes { IfOk result (λ n. (seen n).takes ≡ Some kind) }
        ensures pieces { IfOk result (λ n. (seen n).grade.pieces ≡ of_pieces (seen n).takes) }
        ensures exact { IfOk result (λ n. (seen n).grade.exact ≡ true) }
        ensures sites { IfOk result (λ n. (t : ℕ) → (seen n).sites t ≡ false) }
        ensures places { IfOk result (λ n. (place : ℕ → Place) → StandsAt n place) }
        ensures bound { IfOk result (λ n. bound_of n ≡ pieces.bound_of word.now kind) }
        ensures chunks { IfOk result (λ n. chunks_of n ≡ chunk_at kind) }
        ensures means { IfOk result (λ n. (z : Seen) (site : ℕ) (told : Seen) (xs : List Item) (end : End)
            → (seen n).run z xs end ≡ (word_meaning (words.Piece word.now)).run (Some (sort_at kind)) site told xs end) }
    {
        let stage = piece_stage(alloc, word, kind)?;
        Ok(Node::Word(WordStage::Piece(stage)))
    }

    /// The element word `sinkNull`, where pieces of this kind come to it.
    pub fn sink_null(kind: Kind) -> Node
        requires { pieces_at kind ≡ true }
        ensures well { IsWell result }
        ensures unstarted { IsUnstarted (seen result) }
        ensures gives { (seen result).gives ≡ None }
        ensures takes { (seen result).takes ≡ Some kind }
        ensures pieces { (seen result).grade.pieces ≡ of_pieces (seen result).takes }
        ensures exact { (seen result).grade.exact ≡ true }
        ensures sites { (t : ℕ) → (seen result).sites t ≡ false }
        ensures places { (place : ℕ → Place) → StandsAt result place }
        ensures bound { bound_of result ≡ 0 }
        ensures chunks { chunks_of result ≡ chunk_at kind }
        ensures means { (z : Seen) (site : ℕ) (told : Seen) (xs : List Item) (end : End)
            → (seen result).run z xs end ≡ (word_meaning (words.Elem elements.SinkNull)).run (Some (sort_at kind)) site told xs end }
    {
        Node::Word(WordStage::Piece(sink_null(kind)))
    }

    /// A splitter, where elements or pieces of this kind come to it.
    pub fn split(alloc: Global, word: &SplitWord, kind: Kind) -> Result<Node, NoMemory>
        requires { splits.HasType word.now kind }
        ensures well { IfOk result IsWell }
        ensures unstarted { IfOk result (λ n. IsUnstarted (seen n)) }
        ensures gives { IfOk result (λ n. (seen n).gives ≡ Some (splits.gives_of word.now kind)) }
        ensures takes { IfOk result (λ n. (seen n).takes ≡ Some kind) }
        ensures pieces { IfOk result (λ n. (seen n).grade.pieces ≡ of_pieces (seen n).takes) }
        ensures exact { IfOk result (λ n. (seen n).grade.exact ≡ true) }
        ensures sites { IfOk result (λ n. (t : ℕ) → (seen n).sites t ≡ false) }
        ensures places { IfOk result (λ n. (place : ℕ → Place) → StandsAt n place) }
        ensures bound { IfOk result (λ n. bound_of n ≡ splits.bound_of word.now) }
        ensures chunks { IfOk result (λ n. chunks_of n ≡ chunk_at kind) }
        ensures means { IfOk result (λ n. (z : Seen) (site : ℕ) (told : Seen) (xs : List Item) (end : End)
            → (seen n).run z xs end ≡ (word_meaning (words.Split word.now)).run (Some (sort_at kind)) site told xs end) }
    {
        let stage = split_stage(alloc, word, kind)?;
        Ok(Node::Word(WordStage::Split(stage)))
    }

    /// A splitter of bytes, words that pass pieces on or drop them, and a word that takes the pieces, as one leaf.
    pub fn slices(alloc: Global, word: SplitWord, sieves: Vec<Sieve>, end: SliceEnd) -> Node
        requires cutter { IsCutter word }
        requires range { HasRange word }
        requires first { IsFirst end }
        requires joins { MayJoin end (slices.bound_of word) }
        ensures well { IsWell result }
        ensures unstarted { IsUnstarted (seen result) }
        ensures gives { (seen result).gives ≡ slice_stages.gives_of end }
        ensures takes { (seen result).takes ≡ Some kind.Bytes }
        ensures pieces { (seen result).grade.pieces ≡ of_pieces (seen result).takes }
        ensures exact { (seen result).grade.exact ≡ true }
        ensures sites { (t : ℕ) → (seen result).sites t ≡ false }
        ensures places { (place : ℕ → Place) → StandsAt result place }
        ensures bound { bound_of result ≡ slices.bound_of word }
        ensures chunks { chunks_of result ≡ chunk_limit }
        ensures means { (z : Seen) (site : ℕ) (told : Seen) (xs : List Item) (end' : End)
            → (seen result).run z xs end' ≡ (slices.chain_meaning word sieves.items end).run (Some sort.Bytes) site told xs end' }
    {
        Node::Word(WordStage::Slices(slice_stage(alloc, word, sieves, end)))
    }

    /// A word that gives what stands in the script.
    pub fn literal(alloc: Global, word: &SourceWord) -> Result<Node, NoMemory>
        requires { literals.HasType word.now }
        ensures well { IfOk result IsWell }
        ensures unstarted { IfOk result (λ n. IsUnstarted (seen n)) }
        ensures gives { IfOk result (λ n. (seen n).gives ≡ Some (literals.literal_kind word.now)) }
        ensures takes { IfOk result (λ n. (seen n).takes ≡ None) }
        ensures pieces { IfOk result (λ n. (seen n).grade.pieces ≡ of_pieces (seen n).takes) }
        ensures exact { IfOk result (λ n. (seen n).grade.exact ≡ true) }
        ensures sites { IfOk result (λ n. (t : ℕ) → (seen n).sites t ≡ false) }
        ensures places { IfOk result (λ n. (place : ℕ → Place) → StandsAt n place) }
        ensures bound { IfOk result (λ n. bound_of n ≡ 0) }
        ensures chunks { IfOk result (λ n. chunks_of n ≡ chunk_at (literals.literal_kind word.now)) }
        ensures means { IfOk result (λ n. (z : Seen) (flow : Flow) (site : ℕ) (told : Seen) (xs : List Item) (end : End)
            → (seen n).run z xs end ≡ (word_meaning (words.Source word.now)).run flow site told xs end) }
    {
        let stage = literal_stage(alloc, word)?;
        Ok(Node::Word(WordStage::Literal(stage)))
    }

    /// `sourceFile`, at this site.
    pub fn source_file(site: Site) -> Node
        ensures well { IsWell result }
        ensures unstarted { IsUnstarted (seen result) }
        ensures gives { (seen result).gives ≡ Some kind.Bytes }
        ensures takes { (seen result).takes ≡ None }
        ensures pieces { (seen result).grade.pieces ≡ of_pieces (seen result).takes }
        ensures exact { (seen result).grade.exact ≡ true }
        ensures sites { (t : ℕ) → (seen result).sites t ≡ (t == site.0) }
        ensures places { (place : ℕ → Place) (name : List ℕ) → place site.0 ≡ Reads name → StandsAt result place }
        ensures bound { bound_of result ≡ 0 }
        ensures chunks { chunks_of result ≡ chunk_limit }
        ensures means { (name : List ℕ) (flow : Flow) (z : Seen) (xs : List Item) (end : End)
            → (seen result).run z xs end ≡ (word_meaning (words.Source (sources.SourceFile name))).run flow site.0 z xs end }
    {
        Node::Source(Source::file(site))
    }

    /// `stdin`, at this site.
    pub fn stdin(site: Site) -> Node
        ensures well { IsWell result }
        ensures unstarted { IsUnstarted (seen result) }
        ensures gives { (seen result).gives ≡ Some kind.Bytes }
        ensures takes { (seen result).takes ≡ None }
        ensures pieces { (seen result).grade.pieces ≡ of_pieces (seen result).takes }
        ensures exact { (seen result).grade.exact ≡ true }
        ensures sites { (t : ℕ) → (seen result).sites t ≡ (t == site.0) }
        ensures places { (place : ℕ → Place) → place site.0 ≡ ReadsInput → StandsAt result place }
        ensures bound { bound_of result ≡ 0 }
        ensures chunks { chunks_of result ≡ chunk_limit }
        ensures means { (flow : Flow) (z : Seen) (xs : List Item) (end : End)
            → (seen result).run z xs end ≡ (word_meaning (words.Source sources.Stdin)).run flow site.0 z xs end }
    {
        Node::Source(Source::stdin(site))
    }

    /// `sinkFile`, at this site.
    pub fn sink_file(site: Site) -> Node
        ensures well { IsWell result }
        ensures unstarted { IsUnstarted (seen result) }
        ensures gives { (seen result).gives ≡ None }
        ensures takes { (seen result).takes ≡ Some kind.Bytes }
        ensures pieces { (seen result).grade.pieces ≡ of_pieces (seen result).takes }
        ensures exact { (seen result).grade.exact ≡ true }
        ensures sites { (t : ℕ) → (seen result).sites t ≡ (t == site.0) }
        ensures places { (place : ℕ → Place) (name : List ℕ) → place site.0 ≡ Writes name → StandsAt result place }
        ensures bound { bound_of result ≡ 0 }
        ensures chunks { chunks_of result ≡ chunk_limit }
        ensures means { (name : List ℕ) (flow : Flow) (z : Seen) (xs : List Item) (end : End)
            → (seen result).run z xs end ≡ (word_meaning (words.Sink (sinks.SinkFile name))).run flow site.0 z xs end }
    {
        Node::Sink(Sink::file(site))
    }

    /// `stdout`, at this site.
    pub fn stdout(site: Site) -> Node
        ensures well { IsWell result }
        ensures unstarted { IsUnstarted (seen result) }
        ensures gives { (seen result).gives ≡ None }
        ensures takes { (seen result).takes ≡ Some kind.Bytes }
        ensures pieces { (seen result).grade.pieces ≡ of_pieces (seen result).takes }
        ensures exact { (seen result).grade.exact ≡ true }
        ensures sites { (t : ℕ) → (seen result).sites t ≡ (t == site.0) }
        ensures places { (place : ℕ → Place) → place site.0 ≡ WritesOutput → StandsAt result place }
        ensures bound { bound_of result ≡ 0 }
        ensures chunks { chunks_of result ≡ chunk_limit }
        ensures means { (flow : Flow) (z : Seen) (xs : List Item) (end : End)
            → (seen result).run z xs end ≡ (word_meaning (words.Sink sinks.Stdout)).run flow site.0 z xs end }
    {
        Node::Sink(Sink::stdout(site))
    }

    /// `a | b`: `b` reads what `a` gives.
    pub fn fused(alloc: Global, a: Node, b: Node) -> Result<Node, NoMemory>
        requires a { IsWell a × IsUnstarted (seen a) }
        requires b { IsWell b × IsUnstarted (seen b) }
        requires beside { AreBeside (seen a) (seen b) }
        ensures well { IfOk result IsWell }
        ensures unstarted { IfOk result (λ n. IsUnstarted (seen n)) }
        ensures gives { IfOk result (λ n. (seen n).gives ≡ (seen b).gives) }
        ensures takes { IfOk result (λ n. (seen n).takes ≡ (seen a).takes) }
        ensures pieces { IfOk result (λ n. (seen n).grade.pieces ≡ of_pieces (seen n).takes) }
        ensures exact { IfOk result (λ n. (seen n).grade.exact ≡ (seen a).grade.pieces) }
        ensures sites { IfOk result (λ n. (t : ℕ) → (seen n).sites t ≡ both_sites (seen a).sites (seen b).sites t) }
        ensures places { IfOk result (λ n. (place : ℕ → Place) → StandsAt a place → StandsAt b place → StandsAt n place) }
        ensures bound { IfOk result (λ n. bound_of n ≡ bound_of a + bound_of b) }
        ensures chunks { IfOk result (λ n. chunks_of n ≡ chunks_of a + chunks_of b) }
        ensures means { IfOk result (λ n. (z : Seen) (xs : List Item) (end : End) → (seen n).run z xs end ≡ fuse ((seen a).run z) ((seen b).run z) xs end) }
    {
        let node = Node::pair(alloc, PairControl::Fusion(Fuse::new()), a, b)?;
        Ok(node)
    }

    /// `a` and then `b`, which reads what `a` has left.
    pub fn followed(alloc: Global, a: Node, b: Node) -> Result<Node, NoMemory>
        requires a { IsWell a × IsUnstarted (seen a) }
        requires b { IsWell b × IsUnstarted (seen b) }
        requires in_turn { AreInTurn (seen a) (seen b) }
        ensures well { IfOk result IsWell }
        ensures unstarted { IfOk result (λ n. IsUnstarted (seen n)) }
        ensures gives { IfOk result (λ n. (seen n).gives ≡ joined (seen a).gives (seen b).gives) }
        ensures takes { IfOk result (λ n. (seen n).takes ≡ shared (seen a).takes (seen b).takes) }
        ensures pieces { IfOk result (λ n. (seen n).grade.pieces ≡ of_pieces (seen n).takes) }
        ensures exact { IfOk result (λ n. (seen n).grade.exact ≡ (seen b).grade.exact) }
        ensures sites { IfOk result (λ n. (t : ℕ) → (seen n).sites t ≡ both_sites (seen a).sites (seen b).sites t) }
        ensures places { IfOk result (λ n. (place : ℕ → Place) → StandsAt a place → StandsAt b place → StandsAt n place) }
        ensures bound { IfOk result (λ n. bound_of n ≡ bound_of a + bound_of b) }
        ensures chunks { IfOk result (λ n. chunks_of n ≡ chunks_of a + chunks_of b) }
        ensures means { IfOk result (λ n. (z : Seen) (xs : List Item) (end : End) → (seen n).run z xs end ≡ sequence ((seen a).run z) ((seen b).run z) xs end) }
    {
        let node = Node::pair(alloc, PairControl::Sequence(Follow::new()), a, b)?;
        Ok(node)
    }

    /// `mark` round a node, at this site.
    pub fn marked(alloc: Global, site: Site, body: Node) -> Result<Node, NoMemory>
        requires body { IsWell body × IsUnstarted (seen body) }
        requires own { (seen body).sites site.0 ≡ false }
        requires graded { IsGrade (seen body).grade }
        ensures well { IfOk result IsWell }
        ensures unstarted { IfOk result (λ n. IsUnstarted (seen n)) }
        ensures gives { IfOk result (λ n. (seen n).gives ≡ (seen body).gives) }
        ensures takes { IfOk result (λ n. (seen n).takes ≡ (seen body).takes) }
        ensures pieces { IfOk result (λ n. (seen n).grade.pieces ≡ of_pieces (seen n).takes) }
        ensures exact { IfOk result (λ n. (seen n).grade.exact ≡ (seen body).grade.exact) }
        ensures sites { IfOk result (λ n. (t : ℕ) → (seen n).sites t ≡ (t == site.0) || (seen body).sites t) }
        ensures places { IfOk result (λ n. (place : ℕ → Place) (name : List ℕ) → place site.0 ≡ Marks name → StandsAt body place → StandsAt n place) }
        ensures bound { IfOk result (λ n. bound_of n ≡ bound_of body) }
        ensures chunks { IfOk result (λ n. chunks_of n ≡ chunks_of body) }
        ensures means { IfOk result (λ n. (z : Seen) (xs : List Item) (end : End) → (seen n).run z xs end ≡ marked site.0 ((seen body).run z) xs end) }
    {
        let mark = Mark::new(site);
        match Box::new(alloc, body) {
            Ok(body) => Ok(Node::Marked(mark, body)),
            Err(refused) => {
                mark.give_up();
                refused.value.give_up();
                Err(NoMemory)
            }
        }
    }

    /// Two nodes under a controller, none of which has begun.
    fn pair(alloc: Global, control: PairControl, a: Node, b: Node) -> Result<Node, NoMemory>
        requires a { HasNoTicket (seen a) }
        requires b { HasNoTicket (seen b) }
        ensures { IfOk result (IsPairOf control a b) }
    {
        let upper = match Box::new(alloc, a) {
            Ok(upper) => upper,
            Err(refused) => {
                drop(control);
                refused.value.give_up();
                b.give_up();
                return Err(NoMemory);
            }
        };
        match Box::new(alloc, b) {
            Ok(lower) => Ok(Node::Pair(control, None, upper, lower)),
            Err(refused) => {
                drop(control);
                Box::into_inner(upper).give_up();
                refused.value.give_up();
                Err(NoMemory)
            }
        }
    }
}
