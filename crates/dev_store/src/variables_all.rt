ghost use Rattle.std.specs.Prelude.{◌≡◌, ◌≤◌, length, option_map, slice_get};
ghost use Rattle.dev_model.specs.Variables.{all_rows};
ghost use Rattle.dev_store.specs.StoreCalls.{Shows, info_text};
ghost use Rattle.dev_store.specs.ToldRows.{row_of, told_device, AreTellable};

use crate::variables_base::base_row_at;
use crate::variables_find::add_text;
use crate::variables_row::{Facts, Row, Step};
use crate::variables_text::{add, finish};
use crate::variables_told::plain_step;
use arrayvec::ArrayVec;
use fb_message::line::Line;

/// Puts a variable's name and its text in place of what the line held.
fn show_row(row: &Row, line: &mut Line)
    requires { length (info_text (row_of row.now)) ≤ 252 }
    ensures { line.new ≡ info_text (row_of row.now) }
{
    let mut draft = ArrayVec::new();
    add(&mut draft, row.head);
    add(&mut draft, row.of);
    add(&mut draft, b":");
    add_text(&mut draft, &row.text);
    finish(&draft, line);
}

/// The variable at a place of the order of `all`.
#[tactic(auto, unfolding(dev_model::specs::Variables::all_rows))]
fn row_at<'a>(facts: &'a Facts<'a>, place: usize) -> Option<Row<'a>>
    requires { AreTellable facts.now }
    ensures { option_map row_of result ≡ slice_get (all_rows (told_device facts.now)) place }
{
    match plain_step(facts, place) {
        Step::Found(row) => Some(row),
        Step::Later(place) => base_row_at(facts, place),
    }
}

/// Puts the variable at a place of the order of `all` in the line, as `name:value`.
pub fn show_variable(facts: &Facts, place: usize, line: &mut Line) -> bool
    requires { AreTellable facts.now }
    ensures { Shows (option_map info_text (slice_get (all_rows (told_device facts.now)) place))
        result line.old line.new }
{
    match row_at(facts, place) {
        None => false,
        Some(row) => {
            show_row(&row, line);
            true
        }
    }
}
