// Phasors: the cosine and the sine of one of 1024 angles of a turn, 16384 for 1.
ghost use Rattle.std.specs.Prelude.{◌≡◌, ◌≤◌, pos, neg_ℤ, if◌then◌else◌};
ghost use Rattle.samples.specs.Phasors.{Halving, cosine, fine_cosine, phasor_of, step_cosine};
ghost use Rattle.samples.specs.Bounds.{Between};
ghost use Rattle.samples.specs.Phases.{index_16, index_48};

// The cosines of a quarter turn, in steps of a 1024th of a turn.
const COSINES: [u16; 257] = [
    16384, 16384, 16383, 16381, 16379, 16376, 16373, 16369, 16364, 16359, 16353, 16347, 16340,
    16332, 16324, 16315, 16305, 16295, 16284, 16273, 16261, 16248, 16235, 16221, 16207, 16192,
    16176, 16160, 16143, 16125, 16107, 16088, 16069, 16049, 16029, 16008, 15986, 15964, 15941,
    15917, 15893, 15868, 15843, 15817, 15791, 15763, 15736, 15707, 15679, 15649, 15619, 15588,
    15557, 15525, 15493, 15460, 15426, 15392, 15357, 15322, 15286, 15250, 15213, 15175, 15137,
    15098, 15059, 15019, 14978, 14937, 14896, 14854, 14811, 14768, 14724, 14680, 14635, 14589,
    14543, 14497, 14449, 14402, 14354, 14305, 14256, 14206, 14155, 14104, 14053, 14001, 13949,
    13896, 13842, 13788, 13733, 13678, 13623, 13567, 13510, 13453, 13395, 13337, 13279, 13219,
    13160, 13100, 13039, 12978, 12916, 12854, 12792, 12729, 12665, 12601, 12537, 12472, 12406,
    12340, 12274, 12207, 12140, 12072, 12004, 11935, 11866, 11797, 11727, 11656, 11585, 11514,
    11442, 11370, 11297, 11224, 11151, 11077, 11003, 10928, 10853, 10778, 10702, 10625, 10549,
    10471, 10394, 10316, 10238, 10159, 10080, 10001, 9921, 9841, 9760, 9679, 9598, 9516, 9434,
    9352, 9269, 9186, 9102, 9019, 8935, 8850, 8765, 8680, 8595, 8509, 8423, 8337, 8250, 8163, 8076,
    7988, 7900, 7812, 7723, 7635, 7545, 7456, 7366, 7276, 7186, 7096, 7005, 6914, 6823, 6731, 6639,
    6547, 6455, 6363, 6270, 6177, 6084, 5990, 5897, 5803, 5708, 5614, 5520, 5425, 5330, 5235, 5139,
    5044, 4948, 4852, 4756, 4660, 4563, 4467, 4370, 4273, 4176, 4078, 3981, 3883, 3786, 3688, 3590,
    3492, 3393, 3295, 3196, 3098, 2999, 2900, 2801, 2702, 2603, 2503, 2404, 2305, 2205, 2105, 2006,
    1906, 1806, 1706, 1606, 1506, 1406, 1306, 1205, 1105, 1005, 904, 804, 704, 603, 503, 402, 302,
    201, 101, 0,
];

// Entry k of the table, with the rule that the whole table keeps.
fn cosine_at(k: usize) -> u16
    requires { k ≤ 256 }
    ensures value { result ≡ cosine k }
    ensures at_most_one { result ≤ 16384 }
    ensures rule { Halving step_cosine fine_cosine cosine }
{
    COSINES[k]
}

// x, or -x.
fn signed(x: u16, negative: bool) -> i16
    requires { x ≤ 16384 }
    ensures { result ≡ (if negative then neg_ℤ (pos x) else pos x) }
{
    if negative { -(x as i16) } else { x as i16 }
}

/// Cosine and sine of n of 1024 parts of a turn. n counts modulo 1024.
///
/// In the odd quarters the table is read backwards. The cosine is negative in quarters 1 and 2, the sine in 2 and 3.
pub fn phasor(n: u16) -> (i16, i16)
    ensures value { result ≡ phasor_of n }
    ensures cosine_within { Between 16384 result.0 }
    ensures sine_within { Between 16384 result.1 }
    ensures rule { Halving step_cosine fine_cosine cosine }
{
    let quarter = n % 1024 / 256;
    let k = (n % 256) as usize;
    let i = if quarter % 2 == 0 { k } else { 256 - k };
    (
        signed(cosine_at(i), (quarter + 1) % 4 >= 2),
        signed(cosine_at(256 - i), quarter >= 2),
    )
}

/// The index of the phasor for a phase of 2^48 a turn.
#[tactic(auto, unfolding(crate::specs::Phases::index_48))]
pub fn index_48(phase: u64) -> u16
    ensures { result ≡ index_48 phase }
{
    ((phase % (1 << 48)) >> 38) as u16
}

/// The index of the phasor for a phase of 65536 a turn.
pub fn index_16(phase: i64) -> u16
    ensures { result ≡ index_16 phase }
{
    (phase.rem_euclid(65536) / 64) as u16
}
