// Refusals 1 and 2: the table's length and its header.
ghost use Rattle.std.specs.Prelude.{◌≡◌, false};
ghost use Rattle.records.specs.Types.{stored_of};
ghost use Rattle.storage.specs.Header.{wrong_length, wrong_header};

use crate::Table;
use words::Word;

pub fn wrong_length(table: &Table) -> bool
    ensures { result ≡ wrong_length (stored_of table.now) }
{
    let words = table.form.words();
    // The header is read only where there is one.
    if table.words.len() < words {
        return true;
    }
    let n = table.count();
    n < 1 || Word::WORKSPACE_MOST < n || table.words.len() != words * (n + 1)
}

pub fn wrong_header(table: &Table) -> bool
    requires { wrong_length (stored_of table.now) ≡ false }
    ensures { result ≡ wrong_header (stored_of table.now) }
{
    !table.form.header_fits(table.words) || table.root() < 1 || table.count() < table.root()
}
