// Words and marked files: what is refused where one begins, its site, and its type.
ghost use Rattle.std.specs.Prelude.{◌≡◌, [], ◌∷◌, ◌++◌, length, IfOk, None, OnOk, Some, false};
ghost use Rattle.cd_meaning.specs.Places.{Marks};
ghost use Rattle.cd_types.specs.Conditions.{fails_where};
ghost use Rattle.cd_types.specs.Moments as moments;
ghost use Rattle.cd_types.specs.Moments.{site_fails};
ghost use Rattle.cd_types.specs.Numbering.{site_before};
ghost use Rattle.cd_types.specs.Parts.{word_part};
ghost use Rattle.cd_types.specs.WordTypes.{word_fails, word_gives, word_site};
ghost use Rattle.cd_types.specs.declared.refusal.RefusalKind.TheVariants.{Key, KindMismatch, NameTwice, NeedsElements, OpenEnd, SeesChunks, TooMany};
ghost use Rattle.cd_typing.specs.Lowest as conditions;
ghost use Rattle.cd_typing.specs.Spots.{reached};
ghost use Rattle.cd_typing.specs.Walking.{Answers, Moves, spot, start};

use crate::refusal::{CheckRefusal, refused};
use crate::sites::{add_site, clashes_earlier, has_most_sites};
use crate::walk::Walk;
use cd_elem::{Kind, Literal, NoMemory, SinkWord, SourceWord, Word};
use cd_part_types::{
    PartType, bound_of_word, gives, has_open_end, is_site, mismatches, needs_elements, sees_chunks,
    word_type,
};
use cd_typed::SiteUse;
use cd_types::RefusalKind;
use std::alloc::Global;

fn early(mismatch: bool, chunks: bool, elements: bool, twice: bool) -> Option<RefusalKind>
    ensures { result ≡ conditions.early mismatch chunks elements twice None }
{
    if mismatch {
        Some(RefusalKind::KindMismatch)
    } else if chunks {
        Some(RefusalKind::SeesChunks)
    } else if elements {
        Some(RefusalKind::NeedsElements)
    } else if twice {
        Some(RefusalKind::NameTwice)
    } else {
        None
    }
}

fn late(many: bool, open_end: bool) -> Option<RefusalKind>
    ensures { result ≡ conditions.late many open_end }
{
    if many {
        Some(RefusalKind::TooMany)
    } else if open_end {
        Some(RefusalKind::OpenEnd)
    } else {
        None
    }
}

impl Walk {
    fn word_clashes(&self, word: &Word) -> bool
        ensures { result ≡ site_fails (reached (spot self.now)).sites (word_site word.now) NameTwice }
    {
        match word {
            Word::Source(SourceWord::SourceFile(name)) => {
                clashes_earlier(&self.sites, SiteUse::Reading, name.as_str())
            }
            Word::Source(SourceWord::Stdin) => clashes_earlier(&self.sites, SiteUse::Stdin, ""),
            Word::Sink(SinkWord::SinkFile(name)) => {
                clashes_earlier(&self.sites, SiteUse::Writing, name.as_str())
            }
            Word::Sink(SinkWord::Stdout) => clashes_earlier(&self.sites, SiteUse::Stdout, ""),
            _ => false,
        }
    }

    fn word_is_too_many(&self, word: &Word) -> bool
        ensures { result ≡ site_fails (reached (spot self.now)).sites (word_site word.now) TooMany }
    {
        is_site(word) && has_most_sites(&self.sites)
    }

    /// The lowest condition before the bound of what a word gives.
    fn refused_early(&self, word: &Word, flow: Option<Kind>) -> Option<RefusalKind>
        ensures { result ≡ conditions.early (word_fails word.now flow KindMismatch) (word_fails word.now flow SeesChunks) (word_fails word.now flow NeedsElements)
            (site_fails (reached (spot self.now)).sites (word_site word.now) NameTwice) None }
    {
        let clashes = self.word_clashes(word);
        early(
            mismatches(word, flow),
            sees_chunks(word, flow),
            needs_elements(word, flow),
            clashes,
        )
    }

    /// The lowest condition behind it.
    fn refused_late(&self, word: &Word, flow: Option<Kind>) -> Option<RefusalKind>
        ensures { result ≡ conditions.late (site_fails (reached (spot self.now)).sites (word_site word.now) TooMany) (word_fails word.now flow OpenEnd) }
    {
        late(self.word_is_too_many(word), has_open_end(word, flow))
    }

    /// Adds the site that a word is, if any.
    #[tactic(auto, using(crate::proofs::Steps::none_added))]
    fn add_word_site(
        &mut self,
        alloc: Global,
        statement: u32,
        part: u32,
        word: &Word,
    ) -> Result<(), NoMemory>
        ensures added { OnOk result ((spot self.new).sites ≡ (spot self.old).sites ++ site_before statement part (word_site word.now) []) }
        ensures total { self.new.total ≡ self.old.total }
        ensures parts { self.new.parts ≡ self.old.parts }
    {
        let (use_of, name) = match word {
            Word::Source(SourceWord::SourceFile(name)) => (SiteUse::Reading, name.as_str()),
            Word::Source(SourceWord::Stdin) => (SiteUse::Stdin, ""),
            Word::Sink(SinkWord::SinkFile(name)) => (SiteUse::Writing, name.as_str()),
            Word::Sink(SinkWord::Stdout) => (SiteUse::Stdout, ""),
            _ => return Ok(()),
        };
        add_site(alloc, &mut self.sites, use_of, name, statement, part)
    }

    /// Begins a word, which may be a site, and tells what it gives.
    fn begin_word(
        &mut self,
        alloc: Global,
        statement: u32,
        part: u32,
        word: &Word,
        flow: Option<Kind>,
    ) -> Result<Option<Kind>, CheckRefusal>
        ensures moves { Moves (spot self.old) (moments.begin_part statement part (word_fails word.now flow) (word_site word.now) ∷ []) (spot self.new) result }
        ensures gives { IfOk result (λ to. to ≡ word_gives word.now flow) }
        ensures parts { self.new.parts ≡ self.old.parts }
    {
        if let Some(kind) = self.refused_early(word, flow) {
            return Err(refused(kind, statement, part));
        }
        let Some(to) = gives(word, flow) else {
            return Err(refused(RefusalKind::BoundTooLarge, statement, part));
        };
        if let Some(kind) = self.refused_late(word, flow) {
            return Err(refused(kind, statement, part));
        }
        self.add_word_site(alloc, statement, part, word)?;
        Ok(to)
    }

    /// Types a word.
    pub fn type_word(
        &mut self,
        alloc: Global,
        statement: u32,
        part: u32,
        word: &Word,
        flow: Option<Kind>,
    ) -> Result<PartType, CheckRefusal>
        requires { part ≡ length self.old.parts.items }
        ensures { Answers (word_part word.now) (start statement part flow self.old) self.new result }
    {
        let to = self.begin_word(alloc, statement, part, word, flow)?;
        let bound = self.finish(statement, part, bound_of_word(word, flow))?;
        Ok(word_type(alloc, word, flow, to, bound)?)
    }

    /// Begins a marked file. Where that is asked for a key, `is_known` says that there is such a key already.
    pub fn begin_mark(
        &mut self,
        alloc: Global,
        statement: u32,
        part: u32,
        name: &Literal,
        is_known: bool,
    ) -> Result<(), CheckRefusal>
        ensures moves { Moves (spot self.old) (moments.begin_part statement part (fails_where Key is_known) (Some (Marks name.now)) ∷ []) (spot self.new) result }
        ensures parts { self.new.parts ≡ self.old.parts }
        ensures known { OnOk result (is_known ≡ false) }
    {
        if clashes_earlier(&self.sites, SiteUse::Marking, name.as_str()) {
            return Err(refused(RefusalKind::NameTwice, statement, part));
        }
        if has_most_sites(&self.sites) {
            return Err(refused(RefusalKind::TooMany, statement, part));
        }
        if is_known {
            return Err(refused(RefusalKind::Key, statement, part));
        }
        add_site(
            alloc,
            &mut self.sites,
            SiteUse::Marking,
            name.as_str(),
            statement,
            part,
        )?;
        Ok(())
    }
}
