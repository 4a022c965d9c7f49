// Tables in text: an entry a line, in columns.
ghost use Rattle.std.specs.Prelude.{◌≡◌, ◌<◌, ◌↔◌, IsTrue, IsNone, IfSome, MatchOption, length, take};
ghost use Rattle.comparison.specs.Tables.{Begins, IsEntry, IsOneColumn, columns, row_columns};

/// An empty line and one that begins with # is no entry.
pub fn is_entry(line: &str) -> bool
    ensures { IsTrue result ↔ IsEntry line.now }
{
    !line.is_empty() && !line.starts_with('#')
}

// The first column, and what stands behind its bar, if there is one.
#[tactic(auto, using(crate::proofs::Columns::columns_first, crate::proofs::Columns::columns_last))]
fn first_column(text: &str) -> Option<(&str, &str)>
    ensures { MatchOption result (IsOneColumn text.now) (λ p. Begins text.now p.0.now p.1.now) }
{
    let (column, rest) = text.split_once('|')?;
    Some((column.trim(), rest))
}

/// The columns of an entry `name | what | of what | answer`, without the blanks around them.
#[derive(Clone, Copy, Debug)]
pub struct Row<'a> {
    /// The first column.
    pub name: &'a str,
    /// The second.
    pub what: &'a str,
    /// The third.
    pub of_what: &'a str,
    /// The fourth.
    pub answer: &'a str,
}

impl<'a> Row<'a> {
    /// The first four columns of the line, if it has as many.
    pub fn of(line: &'a str) -> Option<Row<'a>>
        ensures none { IsNone result ↔ (length (columns line.now) < 4) }
        ensures columns { IfSome result (λ row. take 4 (columns line.now) ≡ row_columns row) }
    {
        let (name, rest) = first_column(line)?;
        let (what, rest) = first_column(rest)?;
        let (of_what, rest) = first_column(rest)?;
        let answer = match first_column(rest) {
            Some((answer, _)) => answer,
            None => rest.trim(),
        };
        Some(Row {
            name,
            what,
            of_what,
            answer,
        })
    }
}
