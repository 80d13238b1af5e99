//! The numbers by which commands are drawn.
ghost use Rattle.std.specs.Prelude.{◌≡◌};
ghost use Rattle.yp_gen.specs.Draws.{draw_of, next_state};

/// The state after another: the linear congruential generator of Knuth's MMIX.
pub(crate) fn step(state: u64) -> u64
    ensures { result ≡ next_state state }
{
    state
        .wrapping_mul(6_364_136_223_846_793_005)
        .wrapping_add(1_442_695_040_888_963_407)
}

/// The draw of a state: its upper 31 bits.
pub(crate) fn draw(state: u64) -> u32
    ensures { result ≡ draw_of state }
{
    (state >> 33) as u32
}
