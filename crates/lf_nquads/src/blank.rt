//! Blank nodes (RDF 1.1 N-Quads, production `BLANK_NODE_LABEL`).
ghost use Rattle.std.specs.Prelude.{◌≡◌};
ghost use Rattle.std.specs.Str.{chars};
ghost use Rattle.def_patch_texts.specs.Characters.{is_label};
ghost use Rattle.def_patch_texts.specs.Reading.{front_at, blank_at};
ghost use Rattle.lf_nquads.specs.Outcomes.{expected};
ghost use Rattle.lf_nquads.specs.Gives.{Gives, encoded};
ghost use Rattle.lf_nquads.specs.Scanning.{first_in_label};

use crate::characters::begins_label;
use crate::cursor::Cursor;
use crate::error::Fault;
use def_patch_texts::LineKind;
use lf_base::Text;
use std::alloc::Global;

impl<'a> Cursor<'a> {
    // Takes the first character of a label.
    fn first_of_label(&mut self) -> Result<char, Fault>
        ensures { Gives (λ c. (c, self.new)) result (expected (first_in_label self.old)) }
    {
        match self.next() {
            Some(c) => {
                if begins_label(c) {
                    return Ok(c);
                }
                Err(Fault::Bad(LineKind::Syntax))
            }
            None => Err(Fault::Bad(LineKind::Syntax)),
        }
    }

    // Takes the longest label. Dots at its end are left where they are.
    fn label(&mut self) -> Result<&'a str, Fault>
        ensures { Gives (λ label. (label.now, self.new)) result
            (encoded (expected (front_at is_label self.old))) }
    {
        let start = self.here();
        self.first_of_label()?;
        let mut end = self.here();
        while let Some(c) = self.next_of_label() {
            if c != '.' {
                end = self.here();
            }
        }
        let label = start.until(&end);
        *self = end;
        Ok(label)
    }

    /// Takes a blank node, and gives its label.
    #[tactic(auto, unfolding(def_patch_texts::specs::Reading::blank_at))]
    pub fn blank(&mut self, alloc: Global) -> Result<Text, Fault>
        ensures { Gives (λ label. (label, self.new)) result (expected (blank_at self.old)) }
    {
        self.expect('_')?;
        self.expect(':')?;
        let label = self.label()?;
        Ok(Text::of(alloc, label)?)
    }
}
