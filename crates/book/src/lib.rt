// The book: what each obstacle and the fan took up.
#![tactic(auto)]

mod account;
mod table;

ghost use Rattle.std.specs.Prelude.{◌≡◌, ℕ, ◌≤◌, replicate, ◌+ℤ◌, FitsSigned};
ghost use Rattle.std.specs.Int.{w64};
ghost use Rattle.book.specs.Accounts.{none, account_at, pushed, accounts as account_count};

pub use account::Account;
use lattice::Vector;
pub use table::Book;

/// How many accounts there are.
pub const ACCOUNTS: usize = 16;

impl Book {
    /// A book of nothing.
    pub fn new() -> Book
        ensures { result.accounts ≡ replicate account_count none }
    {
        Book {
            accounts: [Account::default(); ACCOUNTS],
        }
    }

    /// Account n, from 1.
    pub fn account(&self, n: usize) -> Account
        requires { (1 ≤ n) × (n ≤ 16) }
        ensures { result ≡ account_at self.now.accounts n }
    {
        self.accounts[n - 1]
    }

    /// A push on account n; the others stay as they are.
    pub fn push(&mut self, n: usize, by: Vector)
        requires number { (1 ≤ n) × (n ≤ 16) }
        requires along { FitsSigned w64 ((account_at self.old.accounts n).along +ℤ by.along) }
        requires across { FitsSigned w64 ((account_at self.old.accounts n).across +ℤ by.across) }
        ensures { self.new.accounts ≡ pushed self.old.accounts n by }
    {
        self.accounts[n - 1] += by;
    }
}
