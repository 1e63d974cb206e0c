// What a cell is, by its map byte.
ghost use Rattle.std.specs.Prelude.{◌≡◌};
ghost use Rattle.dynamics.specs.Roles.{role_of};

/// No map byte is higher.
pub const HIGHEST_MAP_BYTE: u8 = 16;

/// The role of a cell.
#[derive(Clone, Copy)]
pub enum Role {
    Open,
    /// A wall of this obstacle.
    Wall(u8),
    Fan,
}

impl From<u8> for Role {
    ghost from_gives = { λ byte role. role ≡ role_of byte };

    /// The role that a map byte gives.
    fn from(byte: u8) -> Role {
        match byte {
            1..=15 => Role::Wall(byte),
            16 => Role::Fan,
            _ => Role::Open,
        }
    }
}
