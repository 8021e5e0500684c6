// The sites that a walk has met.
ghost use Rattle.std.specs.Prelude.{◌≡◌, ◌∷◌, ◌++◌, [], length, map, nat_le, OnOk};
ghost use Rattle.std.specs.List.{list_any};
ghost use Rattle.cd_types.specs.Limits.{site_limit};
ghost use Rattle.cd_types.specs.Moments.{clash};
ghost use Rattle.cd_typed.specs.Sites.{place_of, site_of, use_place};
ghost use Rattle.cd_typing.specs.Spots.{places};

use cd_elem::{Literal, NoMemory};
use cd_typed::{SiteInfo, SiteList, SiteUse};
use std::alloc::Global;

/// The greatest number of sites of a script.
pub const SITE_LIMIT: usize = 128;

/// Two sites have one name and one of them writes or marks it, or both are standard input.
fn clashes(site: &SiteInfo, use_of: SiteUse, name: &str) -> bool
    ensures { result ≡ clash (use_place use_of name.now) (place_of site.now) }
{
    match (use_of, site.use_of) {
        (SiteUse::Stdin, SiteUse::Stdin) => true,
        (SiteUse::Reading, SiteUse::Writing | SiteUse::Marking) => site.name.as_str() == name,
        (SiteUse::Writing | SiteUse::Marking, SiteUse::Reading) => site.name.as_str() == name,
        (SiteUse::Writing | SiteUse::Marking, SiteUse::Writing | SiteUse::Marking) => {
            site.name.as_str() == name
        }
        _ => false,
    }
}

fn any_clashes(sites: &[SiteInfo], use_of: SiteUse, name: &str) -> bool
    ensures { result ≡ list_any (λ site. clash (use_place use_of name.now) (place_of site)) sites.now }
{
    sites.iter().any(|site| clashes(site, use_of, name))
}

/// A site of this use clashes with one of these.
#[tactic(auto, using(crate::proofs::Steps::any_of_mapped))]
pub fn clashes_earlier(sites: &SiteList, use_of: SiteUse, name: &str) -> bool
    ensures { result ≡ list_any (clash (use_place use_of name.now)) (places sites.now) }
{
    any_clashes(sites.as_slice(), use_of, name)
}

/// A further site would be too many.
pub fn has_most_sites(sites: &SiteList) -> bool
    ensures { result ≡ nat_le site_limit (length (places sites.now)) }
{
    sites.len() >= SITE_LIMIT
}

/// Adds a site of a part.
pub fn add_site(
    alloc: Global,
    sites: &mut SiteList,
    use_of: SiteUse,
    name: &str,
    statement: u32,
    part: u32,
) -> Result<(), NoMemory>
    ensures { OnOk result (map site_of sites.new ≡ map site_of sites.old ++ record { statement = statement; part = part; place = use_place use_of name.now } ∷ []) }
{
    let name = Literal::new(alloc, name)?;
    let site = SiteInfo {
        use_of,
        name,
        statement,
        part,
    };
    match sites.push(site) {
        Ok(()) => Ok(()),
        Err(_) => Err(NoMemory),
    }
}
