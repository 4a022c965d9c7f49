// The magnitude of a sample.
ghost use Rattle.std.specs.Prelude.{◌≡◌, ◌^◌, ◌<◌, ◌≤◌};
ghost use Rattle.samples.specs.Roots.{Root, root};
ghost use Rattle.stages.specs.Amplifier.{magnitude, power};

use samples::kinds::WorkingSample;

// 65536 times the roots of 0, 1 .. 256, rounded down.
const ROOTS: [u32; 257] = [
    0, 65536, 92681, 113511, 131072, 146542, 160529, 173391, 185363, 196608, 207243, 217358,
    227023, 236293, 245213, 253819, 262144, 270211, 278045, 285664, 293085, 300323, 307391, 314299,
    321059, 327680, 334169, 340535, 346783, 352922, 358955, 364889, 370727, 376475, 382137, 387716,
    393216, 398639, 403991, 409272, 414486, 419635, 424721, 429748, 434716, 439628, 444486, 449292,
    454046, 458752, 463409, 468020, 472586, 477109, 481589, 486027, 490426, 494785, 499107, 503391,
    507639, 511852, 516030, 520175, 524288, 528368, 532416, 536435, 540423, 544382, 548313, 552216,
    556091, 559939, 563761, 567558, 571329, 575076, 578798, 582496, 586171, 589824, 593453, 597061,
    600647, 604212, 607755, 611279, 614782, 618265, 621729, 625173, 628599, 632006, 635395, 638765,
    642119, 645454, 648773, 652074, 655360, 658628, 661881, 665117, 668338, 671544, 674734, 677909,
    681070, 684215, 687347, 690464, 693567, 696657, 699733, 702795, 705844, 708880, 711903, 714913,
    717910, 720896, 723868, 726829, 729778, 732714, 735639, 738553, 741455, 744345, 747225, 750093,
    752951, 755798, 758634, 761459, 764274, 767079, 769873, 772658, 775432, 778196, 780951, 783696,
    786432, 789157, 791874, 794581, 797279, 799968, 802648, 805319, 807982, 810635, 813280, 815916,
    818544, 821163, 823774, 826377, 828972, 831558, 834137, 836707, 839270, 841825, 844372, 846911,
    849443, 851968, 854484, 856994, 859496, 861991, 864479, 866959, 869433, 871899, 874359, 876811,
    879257, 881696, 884128, 886554, 888973, 891385, 893791, 896191, 898584, 900971, 903351, 905725,
    908093, 910455, 912810, 915160, 917504, 919841, 922173, 924499, 926819, 929133, 931441, 933744,
    936041, 938332, 940618, 942898, 945173, 947442, 949706, 951965, 954218, 956466, 958709, 960946,
    963178, 965405, 967627, 969844, 972055, 974262, 976464, 978661, 980853, 983040, 985222, 987399,
    989571, 991739, 993902, 996060, 998214, 1000363, 1002508, 1004647, 1006783, 1008913, 1011040,
    1013161, 1015279, 1017392, 1019500, 1021605, 1023705, 1025800, 1027891, 1029979, 1032061,
    1034140, 1036215, 1038285, 1040351, 1042413, 1044471, 1046525, 1048576,
];

// 65536 times the number that lies `part` of 65536 parts of the way from a to b. Not `linear`: the roots have 21 bits, and
// nothing is rounded yet.
fn line(a: u32, b: u32, part: u32) -> u64
    requires { part < 65536 }
    ensures { result < 2 ^ 49 }
{
    a as u64 * (65536 - part) as u64 + b as u64 * part as u64
}

// About the root of n, by a straight line between two roots of the table: the root or one less. Nothing rests on that
// but speed.
fn near_root(n: u32) -> u64
    ensures { result < 2 ^ 29 }
{
    let half = n.leading_zeros().min(30) / 2;
    let scaled = n << (2 * half);
    let i = (scaled >> 24) as usize;
    line(ROOTS[i], ROOTS[i + 1], (scaled >> 8) % 65536) >> (20 + half)
}

// The greatest whole number whose square is at most n.
fn root_of(n: u32) -> u32
    ensures value { result ≡ root n }
    ensures greatest { Root n result }
{
    let square = n as u64;
    let near = near_root(n);
    let next = near + 1;
    let m = if next * next <= square { next } else { near };
    if m * m <= square && square < (m + 1) * (m + 1) {
        m as u32
    } else {
        n.isqrt()
    }
}

// re² + im².
fn power_of(x: WorkingSample) -> u32
    ensures { result ≡ power x }
{
    let re = x.re.unsigned_abs() as u32;
    let im = x.im.unsigned_abs() as u32;
    re * re + im * im
}

// The magnitude of a sample, rounded down, but at most 32768.
#[tactic(auto, unfolding(crate::specs::Amplifier::magnitude))]
pub(crate) fn magnitude_of(x: WorkingSample) -> u32
    ensures value { result ≡ magnitude x }
    ensures at_most { result ≤ 32768 }
{
    root_of(power_of(x)).min(32768)
}
