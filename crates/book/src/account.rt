// One account.
use lattice::Vector;

/// The momentum that an obstacle or the fan took up: along the tunnel and across.
pub type Account = Vector;
