//! What one look at an index adds to its set.

ghost use Rattle.std.specs.Prelude.{◌≡◌, ◌<◌, ◌∷◌, [], IfOk, length};
ghost use Rattle.std.specs.List.{All};
ghost use Rattle.vhdl_scope.specs.Links.{HasLooked};

use crate::links::Link;
use crate::row::{Draft, Row};
use base::NoMemory;

/// Takes what one link hands on, and says whether the row has grown.
fn follow(link: Link, rows: &[Row], row: &mut Draft) -> Result<bool, NoMemory>
    requires source { link.source < length rows.now }
    requires even { All (λ other. length other ≡ length row.old) rows.now }
    ensures even { length row.new ≡ length row.old }
    ensures looked { IfOk result (HasLooked (link ∷ []) rows.now row.old row.new) }
{
    if row.has(link.library_number) {
        let grown = row.join(&rows[link.source])?;
        return Ok(grown);
    }
    Ok(false)
}

/// Takes what each link hands on, once each and in order, and says whether the row has grown.
pub fn look(links: &[Link], rows: &[Row], row: &mut Draft) -> Result<bool, NoMemory>
    requires sources { All (λ link. link.source < length rows.now) links.now }
    requires even { All (λ other. length other ≡ length row.old) rows.now }
    ensures even { length row.new ≡ length row.old }
    ensures looked { IfOk result (HasLooked links.now rows.now row.old row.new) }
{
    let mut grown = false;
    for link in links {
        let more = follow(*link, rows, row)?;
        grown |= more;
    }
    Ok(grown)
}

/// The same, but it ends where the row has grown to `top`: there is nothing more to take then, where no row has more.
pub fn look_up_to(
    links: &[Link],
    rows: &[Row],
    row: &mut Draft,
    top: &Draft,
) -> Result<bool, NoMemory>
    requires sources { All (λ link. link.source < length rows.now) links.now }
    requires even { All (λ other. length other ≡ length row.old) rows.now }
    ensures even { length row.new ≡ length row.old }
    ensures looked { IfOk result (HasLooked links.now rows.now row.old row.new) }
{
    let mut grown = false;
    for link in links {
        let more = follow(*link, rows, row)?;
        grown |= more;
        if more && row.same(top) {
            return Ok(true);
        }
    }
    Ok(grown)
}
