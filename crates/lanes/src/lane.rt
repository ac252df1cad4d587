// One colour's lane. The spot of a code is its position in cells times 2^32, or a little less: the index stands above 2^32, and what stands below it,
// over D and rounded up, is the fraction. A position on a row's own point falls to the cell below, which gives the same value.
ghost use Rattle.std.specs.Prelude.{◌≤◌, ◌<◌};
ghost use Rattle.lanes.specs.Lanes.{RunsIf};

#[derive(Clone, Copy)]
pub struct Lane {
    // So much further is the spot of the next code.
    pub times: u32,
    // The spot of code 0.
    pub from: u64,
    // One index up is so many places of the table up.
    pub stride: u32,
}

// 2^32, the spot of the first row's end, and the greatest number that is taken times it here.
pub const WHOLE: u64 = 4_294_967_296;

const MOST: u64 = 2_147_483_648;

// The lane of positions a·c + b over D, for codes c up to m in so many cells, if rounding cannot come to a part of D; else none.
pub fn lane_of(m: u64, cells: u64, den: u64, a: u64, b: u64, stride: u32) -> Option<Lane>
    requires m_nonzero { 0 < m }
    requires m_bound { m ≤ 65535 }
    requires cells_bound { cells ≤ 65535 }
    requires den_nonzero { 0 < den }
    ensures { RunsIf m cells den a b stride result }
{
    if a == 0 {
        return None;
    }
    if a > MOST {
        return None;
    }
    if b > MOST {
        return None;
    }
    if den > MOST {
        return None;
    }
    if a * m + b > cells * den {
        return None;
    }
    let times = (WHOLE * a - 1) / den;
    if times >= WHOLE {
        return None;
    }
    let from = WHOLE * b / den;
    let short = (WHOLE * a - 1) % den + 1;
    let rest = WHOLE * b % den;
    if m * short + rest >= WHOLE {
        return None;
    }
    Some(Lane {
        times: times as u32,
        from,
        stride,
    })
}
