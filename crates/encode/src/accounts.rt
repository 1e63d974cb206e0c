// The book: sixteen accounts of two numbers.
ghost use Rattle.std.specs.Prelude.{◌≡◌};
ghost use Rattle.text.specs.Sheets.{Adds};
ghost use Rattle.encode.specs.Encodings.{account_bytes, book_bytes};

use book::{Account, Book};
use text::Sheet;

/// Puts an account.
fn put_account(account: Account, sheet: &mut Sheet)
    ensures { Adds (account_bytes account) sheet.old sheet.new }
{
    sheet.put_bytes(&account.along.to_le_bytes());
    sheet.put_bytes(&account.across.to_le_bytes());
}

/// The accounts, the first of them first.
pub(crate) fn book_bytes(book: &Book) -> [u8; 256]
    ensures { result ≡ book_bytes book.now.accounts }
{
    let mut bytes = [0u8; 256];
    let mut sheet = Sheet::new(&mut bytes);
    for account in &book.accounts {
        put_account(*account, &mut sheet);
    }
    bytes
}
