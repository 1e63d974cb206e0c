// The lines of the accounts.
ghost use Rattle.text.specs.Sheets.{Adds};
ghost use Rattle.report.specs.Lines.{account_name, account_line};
ghost use Rattle.report.specs.Reports.{account_lines};

use super::lines::put_vector;
use book::{ACCOUNTS, Account, Book};
use text::Sheet;

/// `wall` and the number, or `fan`.
fn put_name(n: usize, sheet: &mut Sheet)
    ensures { Adds (account_name n) sheet.old sheet.new }
{
    if n == ACCOUNTS {
        sheet.put_bytes(b"fan");
        return;
    }
    sheet.put_bytes(b"wall ");
    sheet.put_number(n);
}

/// The line of account n, if it has one.
fn put_account(n: usize, account: Account, sheet: &mut Sheet)
    ensures { Adds (account_line n account) sheet.old sheet.new }
{
    if account == Account::default() {
        return;
    }
    put_name(n, sheet);
    put_vector(account, sheet);
}

/// The lines of all accounts that have one.
pub(crate) fn put_accounts(book: &Book, sheet: &mut Sheet)
    ensures { Adds (account_lines book.now.accounts) sheet.old sheet.new }
{
    for (index, account) in book.accounts.iter().enumerate() {
        put_account(index + 1, *account, sheet);
    }
}
