// The table of accounts.
ghost use Rattle.std.specs.Prelude.{◌≡◌, length};

use super::ACCOUNTS;
use super::account::Account;

/// The accounts 1 to 16, the fan's last.
#[derive(Clone, Copy)]
pub struct Book {
    pub accounts: [Account; ACCOUNTS],
    ghost full: { length accounts ≡ 16 },
}
