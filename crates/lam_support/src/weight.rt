// The weights of a bound by force balance.

ghost use Rattle.std.specs.Prelude.{◌+◌, ◌≤◌, unsigned_abs};

/// How a force in a wall is weighted: `x` times the force along the wall, `y` times the force round
/// it, and `s` times the shear force. Each is from -100 to 100, and not all are 0.
#[derive(Clone, Copy, PartialEq, Eq, Debug)]
pub struct Weight {
    /// Of the force along the wall.
    pub x: i64,
    /// Of the force round the wall.
    pub y: i64,
    /// Of the shear force.
    pub s: i64,
    pub ghost x_range: { unsigned_abs x ≤ 100 },
    pub ghost y_range: { unsigned_abs y ≤ 100 },
    pub ghost s_range: { unsigned_abs s ≤ 100 },
    pub ghost some: { 1 ≤ unsigned_abs x + unsigned_abs y + unsigned_abs s },
}
