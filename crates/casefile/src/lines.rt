//! Reads the lines of a text, one after the other.
ghost use Rattle.std.specs.Prelude.{◌≡◌, ◌+◌, ◌<◌, ◌≤◌, false, length, slice_index_or, Ok};
ghost use Rattle.std.specs.Result.{result_err};
ghost use Rattle.casetext.specs.Text.{lines, fields};
ghost use Rattle.casetext.specs.declared.line.Form.TheVariants.{Owner};
ghost use Rattle.casetext.specs.Fields.{wrong};
ghost use Rattle.casetext.specs.Lines.{out_of_place, forms, line_fault};
ghost use Rattle.casetext.specs.Case.{added, read_line, read_lines};
ghost use Rattle.casefile.specs.Draft.{said, answered};

use crate::draft::Draft;
use crate::form::{form_fault, read_kind};
use crate::item::RowLine;
use crate::limits::MAX_CEILING;
use crate::line::Line;
use casetext::fault::TextFault;
use casetext::line::Kind;
use refusals::refusal::Refuses;

/// Whether a line of this kind is without fault; else its first, by number and then by field.
fn check_line(draft: &Draft, kind: Kind, line: &Line) -> Result<(), TextFault>
    ensures { result_err result ≡ line_fault line.now.number (forms (said draft.now) kind) (fields line.now.bytes.now) }
{
    let present = line.field_count();
    let needed = draft.fields_needed(kind);
    if present != needed {
        return Err(TextFault::FieldCount {
            line: line.number,
            field: present.min(needed) as u32 + 1,
        });
    }
    line.bytes
        .split(|b| *b == b'\t')
        .enumerate()
        .filter_map(|(i, field)| draft.field_fault(kind, line.number, i, field))
        .min_by_key(|fault| fault.number())
        .map_or(Ok(()), Err)
}

impl Draft {
    /// What is wrong with the i-th field, from 0, of a line of this kind.
    fn field_fault(&self, kind: Kind, line: u32, i: usize, field: &[u8]) -> Option<TextFault>
        requires { i < length (forms (said self.now) kind) }
        ensures { result ≡ wrong line (i + 1) (slice_index_or (forms (said self.now) kind) i Owner) field.now }
    {
        form_fault(line, i as u32 + 1, self.form_at(kind, i), field)
    }

    /// Adds what a line without faults says.
    fn add_line(&mut self, kind: Kind, line: &Line)
        requires { out_of_place (said self.old) kind ≡ false }
        ensures { said self.new ≡ added (said self.old) kind (fields line.now.bytes.now) }
    {
        match kind {
            Kind::Clock => self.ceilings.push(line.small_value(1, MAX_CEILING)),
            Kind::Loc => self.locations.push(line.location()),
            Kind::Edge => self.edges.push(line.edge()),
            Kind::Row => {
                let clocks = self.ceilings.items.len();
                let line = RowLine {
                    line: *line,
                    clocks,
                };
                self.rows.push(line.row());
                self.ranks.push(line.ranks());
            }
        }
    }

    /// Reads a line, and adds what it says if it has no fault.
    fn read_line(&mut self, line: &Line) -> Result<(), TextFault>
        ensures { answered result (said self.new) ≡ read_line line.now.number (said self.old) line.now.bytes.now }
    {
        let unknown = TextFault::UnknownKind { line: line.number };
        let kind = read_kind(line.field(0)).ok_or(unknown)?;
        check_line(self, kind, line)?;
        self.add_line(kind, line);
        Ok(())
    }

    /// Reads all lines, up to the first that has a fault.
    pub(crate) fn read_lines(&mut self, text: &[u8]) -> Result<(), TextFault>
        requires { length text.now ≤ 65536 }
        ensures { answered result (said self.new) ≡ read_lines 0 (Ok (said self.old)) (lines text.now) }
    {
        for (i, line) in text.split_inclusive(|b| *b == b'\n').enumerate() {
            let bytes = line.strip_suffix(b"\n").unwrap_or(line);
            let number = i as u32 + 1;
            self.read_line(&Line { number, bytes })?;
        }
        Ok(())
    }
}
