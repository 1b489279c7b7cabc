//! What follows from the definitions, whatever is called: each function states a law, and does nothing.
ghost use Rattle.gadget_laws.specs.Digits.{DigitsAreSmall, DigitsMakeUp};
ghost use Rattle.gadget_laws.specs.Shifted.{BalancedDigitsAreShifted, HalvesAreEnough};
ghost use Rattle.gadget_laws.specs.Switching.{DigitsArePolynomials, PolynomialsAreSmall, PolynomialsMakeUp};
ghost use Rattle.gadget_laws.specs.Switching.{RotationsAddLittle, RotationsCarry, RotationsFit, SwitchesAddLittle, SwitchesFit};
ghost use Rattle.gadget_laws.specs.Totals.{SwitchesAreTotals};

/// The digits of a residue times their weights sum to it, or to its centre where they are balanced, and none is
/// greater than W. Balanced digits are those in base 2^b of the number raised by 2^(b-1) in each digit, less that.
pub fn digits()
    ensures sum { DigitsMakeUp }
    ensures small { DigitsAreSmall }
    ensures shifted { BalancedDigitsAreShifted }
    ensures halves { HalvesAreEnough }
{}

/// The same of a polynomial: its polynomials of digits are of the ring, small, and make it up.
pub fn polynomials()
    ensures fit { DigitsArePolynomials }
    ensures small { PolynomialsAreSmall }
    ensures sum { PolynomialsMakeUp }
{}

/// A switch by a key for z has the phase f * z, but for l * n * W times the noise of the key's rows. It is of the ring,
/// and the sum of products of digits and rows, in any order.
pub fn switches()
    ensures noise { SwitchesAddLittle }
    ensures fit { SwitchesFit }
    ensures totals { SwitchesAreTotals }
{}

/// A rotation has the phase with X^e for X, but for as much, is of the ring, and carries the plaintext with X^e for X.
pub fn rotations()
    ensures noise { RotationsAddLittle }
    ensures fit { RotationsFit }
    ensures carries { RotationsCarry }
{}
