// The kinds of item that travel through the emulator, and the arithmetic that they share.
//
// A sample has a real and an imaginary part. A converter sample has 12 bits a part, a working sample 16 and an air
// sample 32, all signed; a gain index is 0 to 127. The ranges stand in the types.
//
// Proved: every maker moves each number to the nearest one of its range; over every width, clipping never turns two
// numbers round, changes no number in range and always ends in range; rounding is towards minus infinity; the table of
// cosines keeps the rule of halving, and every phasor is made of it by the quarter that it lies in; a product is whole,
// and what is interpolated lies between its two ends.
#![tactic(auto)]

pub mod arithmetic;
pub mod complex;
pub mod gain_index;
pub mod kinds;
pub mod phasor;
pub mod sample;
