//! What reading patch texts decides of every text.
ghost use Rattle.lf_nquads.specs.Laws.{EachTextIsTold};

/// Each text states a list of signed quads, or has a first bad line, of one of the kinds.
pub fn each_text_is_told()
    ensures { EachTextIsTold }
{}
