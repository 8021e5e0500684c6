// A script that has a type.
ghost use Rattle.std.specs.Prelude.{◌≡◌, ◌≤◌, ◌<◌, List, [], map, count_by, length, position, IfSome, IsTrue, is_some, option_map, option_and_then};
ghost use Rattle.std.specs.Option.{option_copied};
ghost use Rattle.cd_elem.specs.declared.script.Stmt.{Stmt};
ghost use Rattle.cd_meaning.specs.LawfulTrees.{IsLawfulScript};
ghost use Rattle.cd_meaning.specs.Scripts.{script_places};
ghost use Rattle.cd_part_types.specs.Types.{type_of};
ghost use Rattle.cd_types.specs.Limits.{site_limit, statement_limit, total_limit};
ghost use Rattle.cd_types.specs.Moments.{reached_by};
ghost use Rattle.cd_types.specs.Numbering.{first_site, is_before, key_named, key_number, numbered, part_at, script_sites, seal_named, seal_number, site_number, stands_at};
ghost use Rattle.cd_meaning.specs.Scoped.{IsScoped};
ghost use Rattle.cd_types.specs.Sites.{are_apart};
ghost use Rattle.cd_types.specs.Statements.{bounds_of, key_names, script_moments, script_types, seal_names, statement_of};
ghost use Rattle.cd_types.specs.Typing.{HasType};
ghost use Rattle.cd_typed.specs.Knowing.{KnowsNames};
ghost use Rattle.cd_typed.specs.Sites.{place_of, site_of};
ghost use Rattle.cd_typed.specs.TypedScripts.{IsTyped};

use crate::names::Names;
use crate::numbers::{counted, numbered};
use crate::site::{SiteInfo, SiteList};
use cd_elem::{Items, Script, Site, Stmt};
use cd_part_types::PartType;
use cd_types::{agreement, numbering, typed_scripts};

/// The types of the parts of a statement, in the order of their numbers.
pub type PartList = Items<PartType>;

/// The types of the parts of a script, by statements.
pub type PartTable = Items<PartList>;

/// A script that has a type, with its sites, the types of its parts, and its seals and keys. No call of it takes memory.
#[derive(Drop)]
pub struct Typed {
    script: Script,
    sites: SiteList,
    parts: PartTable,
    total: u64,
    names: Names,
}

/// The seal that a statement defines or uses.
fn seal_name(statement: &Stmt) -> Option<&str>
    ensures { option_copied result ≡ seal_named statement.now }
{
    match statement {
        Stmt::Seal(name, _) => Some(name.as_str()),
        Stmt::Feed(name, _) => Some(name.as_str()),
        Stmt::CloseSeal(name, _) => Some(name.as_str()),
        _ => None,
    }
}

/// The key that a statement defines or uses.
fn key_name(statement: &Stmt) -> Option<&str>
    ensures { option_copied result ≡ key_named statement.now }
{
    match statement {
        Stmt::Hold(name, _) => Some(name.as_str()),
        Stmt::Release(name) => Some(name.as_str()),
        _ => None,
    }
}

/// The place of the first of these sites that is this part of this statement.
fn site_place(sites: &[SiteInfo], statement: u32, part: u32) -> Option<usize>
    ensures place { result ≡ position (λ site. stands_at statement part (site_of site)) sites.now }
    ensures within { IfSome result (λ place. place < length sites.now) }
{
    sites
        .iter()
        .position(|site| site.statement == statement && site.part == part)
}

/// How many of these sites stand before this statement.
fn sites_before(sites: &[SiteInfo], statement: u32) -> usize
    ensures count { result ≡ count_by (λ site. is_before statement (site_of site)) sites.now }
    ensures within { result ≤ length sites.now }
{
    sites
        .iter()
        .filter(|site| site.statement < statement)
        .count()
}

impl Typed {
    /// What a walk over a script has found, once it has passed all of it. It takes no memory.
    pub fn new(script: Script, sites: SiteList, parts: PartTable, total: u64, names: Names) -> Typed
        ensures { HasType script → map site_of sites ≡ script_sites script → map (map type_of) parts ≡ script_types script → total ≡ (reached_by (script_moments script)).total → KnowsNames (map statement_of script) names → IsTyped script result }
    {
        agreement();
        Typed {
            script,
            sites,
            parts,
            total,
            names,
        }
    }

    pub fn script(&self) -> &Script
        ensures { (script : List Stmt) → IsTyped script self.now → result.now ≡ script }
    {
        &self.script
    }

    /// The sites, in their order: the site with the number s is the member s - 1.
    pub fn sites(&self) -> &SiteList
        ensures stand { (script : List Stmt) → IsTyped script self.now → map site_of result.now ≡ script_sites script }
        ensures places { (script : List Stmt) → IsTyped script self.now → map place_of result.now ≡ script_places script }
    {
        numbering();
        &self.sites
    }

    /// How many seals the script defines.
    pub fn seals(&self) -> u32
        ensures { (script : List Stmt) → IsTyped script self.now → result ≡ length (seal_names script) }
    {
        typed_scripts();
        numbering();
        self.names.seal_count()
    }

    /// How many keys the script defines.
    pub fn keys(&self) -> u32
        ensures { (script : List Stmt) → IsTyped script self.now → result ≡ length (key_names script) }
    {
        typed_scripts();
        numbering();
        self.names.key_count()
    }

    /// The sum of the bounds of all parts: so many elements the script may hold, beside a chunk for each part.
    pub fn total_bound(&self) -> u64
        ensures { (script : List Stmt) → IsTyped script self.now → result ≡ bounds_of (script_types script) }
    {
        self.total
    }

    /// The type of a part, by the numbers of its statement and of the part in it, both from 1. None where there is no such
    /// part.
    pub fn part(&self, statement: u32, part: u32) -> Option<&PartType>
        ensures { (script : List Stmt) → IsTyped script self.now → option_map (λ t. type_of t.now) result ≡ part_at script statement part }
    {
        match numbered(&self.parts, statement) {
            Some(parts) => numbered(parts, part),
            None => None,
        }
    }

    /// The site that this part of this statement is, with part 0 for a `hold`. None where it is none.
    pub fn site_of(&self, statement: u32, part: u32) -> Option<Site>
        ensures { (script : List Stmt) → IsTyped script self.now → option_map (λ site. site.0) result ≡ site_number script statement part }
    {
        typed_scripts();
        numbering();
        match site_place(self.sites.as_slice(), statement, part) {
            Some(place) => Some(Site(counted(place + 1))),
            None => None,
        }
    }

    /// The first site of a statement, where it has one: it is behind those of the statements before.
    pub fn first_site(&self, statement: u32) -> Site
        ensures { (script : List Stmt) → IsTyped script self.now → result.0 ≡ first_site script statement }
    {
        typed_scripts();
        numbering();
        let before = sites_before(self.sites.as_slice(), statement);
        Site(counted(before + 1))
    }

    /// The number, from 0, of the seal that a statement defines or uses. None where it has none.
    pub fn seal_of(&self, statement: u32) -> Option<u32>
        ensures number { (script : List Stmt) → IsTyped script self.now → result ≡ seal_number script statement }
        ensures found { (script : List Stmt) → IsTyped script self.now → is_some result ≡ is_some (option_and_then seal_named (numbered script statement)) }
    {
        typed_scripts();
        numbering();
        match numbered(self.script.statements(), statement) {
            Some(found) => match seal_name(found) {
                Some(name) => self.names.seal_number(name),
                None => None,
            },
            None => None,
        }
    }

    /// The number, from 0, of the key that a statement defines or uses. None where it has none.
    pub fn key_of(&self, statement: u32) -> Option<u32>
        ensures number { (script : List Stmt) → IsTyped script self.now → result ≡ key_number script statement }
        ensures found { (script : List Stmt) → IsTyped script self.now → is_some result ≡ is_some (option_and_then key_named (numbered script statement)) }
    {
        typed_scripts();
        numbering();
        match numbered(self.script.statements(), statement) {
            Some(found) => match key_name(found) {
                Some(name) => self.names.key_number(name),
                None => None,
            },
            None => None,
        }
    }
}

/// What holds of each script that has a type, beside what its calls say.
pub fn typed_laws()
    ensures has_type { (script : List Stmt) (typed : Typed) → IsTyped script typed → HasType script }
    ensures lawful { (script : List Stmt) (typed : Typed) → IsTyped script typed → IsLawfulScript script }
    ensures scoped { (script : List Stmt) (typed : Typed) → IsTyped script typed → IsScoped script }
    ensures apart { (script : List Stmt) (typed : Typed) → IsTyped script typed → IsTrue (are_apart [] (script_places script)) }
    ensures statements { (script : List Stmt) (typed : Typed) → IsTyped script typed → length script ≤ statement_limit }
    ensures few_sites { (script : List Stmt) (typed : Typed) → IsTyped script typed → length (script_places script) ≤ site_limit }
    ensures total { (script : List Stmt) (typed : Typed) → IsTyped script typed → bounds_of (script_types script) ≤ total_limit }
    ensures only { (script other : List Stmt) (typed : Typed) → IsTyped script typed → IsTyped other typed → script ≡ other }
{
    typed_scripts();
}
