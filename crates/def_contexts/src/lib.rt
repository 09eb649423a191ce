//! What a context and a frame mean: their definitions and laws (JSON-LD 1.1 Processing Algorithms
//! and API, sections 4 and 5.2; JSON-LD 1.1 Framing, section 4.1).
#![tactic(auto)]

mod laws;

pub use laws::{
    absolute_texts_stay, context_errors_are_named, context_errors_come_first,
    context_errors_have_causes, cycles_are_circles, frame_errors_are_named,
    frame_errors_have_causes, frame_terms_are_its_contexts, frames_are_sound, keywords_stay,
    one_map_in_an_array, room_is_enough, table_terms_give_their_iri, terms_are_sound, terms_ascend,
    terms_give_their_iri, vocab_is_absolute,
};
