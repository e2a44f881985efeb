ghost use Rattle.std.specs.Prelude.{◌≡◌, option_map};
ghost use Rattle.show_line.specs.declared.statement.Record.{Record};
ghost use Rattle.show_line.specs.declared.statement.Statement.TheVariants.{Quiet};
ghost use Rattle.show_reader.specs.Meaning.{after, same_record};
ghost use Rattle.cmd_cues.specs.declared.label_line.LabelKind.{LabelKind};
ghost use Rattle.cmd_cues.specs.Labels.{label_news_of, label_part};
ghost use Rattle.cmd_cues.specs.LabelLines.{label_if, line_news, news_in};
ghost use Rattle.cmd_cues.specs.declared.label_line.LabelKind.TheVariants.{Text, Comment};

use crate::label_part::label_part;
use cmd_explain::{begins_with_word, is_emptied, is_same_record, table_of};
use show_line::{Cleared, Record, Statement};

/// Where a label stands: on a TEXT line, or in the comment of a CUE, SUB or GROUP line.
#[derive(Clone, Copy)]
pub enum LabelKind {
    Text,
    Comment,
}

/// A line that says something of labels.
#[derive(Clone, Copy)]
pub enum LabelLine<'a> {
    /// It gives a record this label.
    Label(Record, LabelKind, &'a [u8]),
    /// It takes the labels away of the records that it clears.
    Clear(Cleared),
}

/// The labels of both kinds that lines have given to a record so far.
#[derive(Clone, Copy)]
pub struct Candidates<'a> {
    pub text: Option<&'a [u8]>,
    pub comment: Option<&'a [u8]>,
}

/// What a line says of labels, if anything, by what it says and the record that owns it.
pub fn label_line<'a>(
    owner: Option<Record>,
    statement: &Statement<'_>,
    line: &'a [u8],
) -> Option<LabelLine<'a>>
    ensures { (r : Record) (kind : LabelKind) → news_in r kind result
        ≡ label_news_of r kind owner statement.now line.now }
{
    match statement {
        Statement::Opens(opened) => label(*opened, LabelKind::Comment, line),
        Statement::Clears(what) => Some(LabelLine::Clear(*what)),
        Statement::Quiet => text_label(owner, line),
        _ => None,
    }
}

// What a line without effect on the show says: a TEXT line labels the record that owns it.
fn text_label<'a>(owner: Option<Record>, line: &'a [u8]) -> Option<LabelLine<'a>>
    ensures { (r : Record) (kind : LabelKind) → news_in r kind result
        ≡ label_news_of r kind owner Quiet line.now }
{
    let Some(of) = owner else {
        return None;
    };
    if begins_with_word(line, b"text") {
        label(of, LabelKind::Text, line)
    } else {
        None
    }
}

// The label of a kind that a line gives to a record, unless it is empty.
fn label<'a>(of: Record, kind: LabelKind, line: &'a [u8]) -> Option<LabelLine<'a>>
    ensures { (r : Record) (k : LabelKind) → news_in r k result
        ≡ label_if (same_record r of) k kind (label_part kind line.now) }
{
    let bytes = label_part(kind, line);
    if bytes.is_empty() {
        None
    } else {
        Some(LabelLine::Label(of, kind, bytes))
    }
}

impl<'a> LabelLine<'a> {
    /// Changes the labels of a record by what the line says of them.
    pub fn apply(&self, of: Record, candidates: &mut Candidates<'a>)
        ensures text { option_map (λ b. b.now) candidates.new.text ≡ after
            (line_news of Text self.now) (option_map (λ b. b.now) candidates.old.text) }
        ensures comment { option_map (λ b. b.now) candidates.new.comment ≡ after
            (line_news of Comment self.now) (option_map (λ b. b.now) candidates.old.comment) }
    {
        match *self {
            LabelLine::Label(named, LabelKind::Text, bytes) if is_same_record(of, named) => {
                candidates.text = Some(bytes);
            }
            LabelLine::Label(named, LabelKind::Comment, bytes) if is_same_record(of, named) => {
                candidates.comment = Some(bytes);
            }
            LabelLine::Clear(what) if is_emptied(what, table_of(of)) => {
                candidates.text = None;
                candidates.comment = None;
            }
            _ => {}
        }
    }
}
