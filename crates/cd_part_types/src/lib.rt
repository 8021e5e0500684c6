//! The types of parts: pure functions that give what the definitions of `cd_types` say, and the first condition that fails.
#![tactic(auto, using(crate::specs::Results::results))]

mod chains;
mod contents;
mod flows;
mod forms;
mod part_type;
mod sequences;
mod statements;
mod word_conditions;
mod word_outputs;
mod word_results;
mod word_sites;

pub use chains::{chain_bound, chain_type, put_type, refused_in_chain};
pub use flows::{join, piece_bound};
pub use forms::{
    mark_type, refused_by_cuts, refused_in_tee, refused_in_zip_conduit_second, refused_in_zip_sink,
    refused_in_zip_source, refused_in_zip_source_second, refused_on_elements, refused_on_nothing,
    refused_on_pieces, section_type, tee_type, zip_conduit_type, zip_sink_type, zip_source_output,
    zip_source_type,
};
pub use part_type::{PartType, ResultKind};
pub use sequences::{JoinedParts, refused_in_sequence};
pub use statements::{refused_behind_feed, refused_behind_let, refused_behind_run};
pub use word_conditions::{has_open_end, mismatches, needs_elements, sees_chunks};
pub use word_outputs::gives;
pub use word_results::{bound_of_word, word_type};
pub use word_sites::is_site;
