// The book of a job: two numbers for each account.
ghost use Rattle.std.specs.Prelude.{◌≡◌, ℕ, ◌+◌, ◌*◌, ◌<◌, ◌≤◌, length, unsigned_abs, nat_lt, IfSome};
ghost use Rattle.lattice.specs.Firsts.{first};
ghost use Rattle.job.specs.Books.{number_of, account_in, accounts_of};
ghost use Rattle.job.specs.Grounds.{book_fault};
ghost use Rattle.job.specs.Outcomes.{judgment};

use super::payloads::Payload;
use book::{ACCOUNTS, Account, Book};
use faults::JobFault;
use std::array;

const BOOK_LENGTH: usize = 256;

const NUMBERS: usize = 2 * ACCOUNTS;

const MOST_PUSH: u64 = 458_752;

/// Number i of a book, from 0.
fn read_number(book: &[u8], i: usize) -> i64
    requires { 8 * i + 8 ≤ length book.now }
    ensures { result ≡ number_of book.now i }
{
    let (numbers, _) = book.as_chunks::<8>();
    i64::from_le_bytes(numbers[i])
}

/// The account at place k of a book, from 0.
fn read_account(book: &[u8], k: usize) -> Account
    requires { 16 * k + 16 ≤ length book.now }
    ensures { result ≡ account_in book.now k }
{
    Account {
        along: read_number(book, 2 * k),
        across: read_number(book, 2 * k + 1),
    }
}

/// The accounts of a book.
pub fn read_book(payload: &[u8]) -> Book
    requires { length payload.now ≡ 256 }
    ensures { result.accounts ≡ accounts_of payload.now }
{
    Book {
        accounts: array::from_fn(|k| read_account(payload, k)),
    }
}

/// The first number of a book that is larger than this.
fn first_beyond(book: &[u8], most: u64) -> Option<usize>
    requires { 256 ≤ length book.now }
    ensures first { result ≡ first 32 (λ i. nat_lt most (unsigned_abs (number_of book.now i))) }
    ensures below { IfSome result (λ i. i < 32) }
{
    (0..NUMBERS).position(|i| read_number(book, i).unsigned_abs() > most)
}

impl<'a> Payload<'a> {
    /// The book has two numbers for each account, each within its range after so many steps.
    pub(crate) fn judge_book(&self, steps: u32) -> Result<(), JobFault>
        ensures { result ≡ judgment (book_fault steps self.now.number self.now.bytes.now) }
    {
        self.judge_length(BOOK_LENGTH)?;
        let most = MOST_PUSH * u64::from(steps);
        match first_beyond(self.bytes, most) {
            Some(place) => Err(JobFault::Account(self.number, 8 * place)),
            None => Ok(()),
        }
    }
}
