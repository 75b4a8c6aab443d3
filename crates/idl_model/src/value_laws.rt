//! Laws of the values of expressions: each function has an empty body, and its clause is the law.
ghost use Rattle.std.specs.Int.RustNames.{unsigned_abs};
ghost use Rattle.std.specs.Prelude.{◌≡◌, ◌<◌, ℕ, ℤ, pos, ◌+ℤ◌, ◌*ℤ◌, int_lt, true, Option, Some, Result, Ok, Err};
ghost use Rattle.idl_model.specs.Trees.{Path, Operator, divided_by, remainder, Expr, chain, Operands, operand};
ghost use Rattle.idl_model.specs.Values.{ConstFault, is_wide, apply, value, values, numbers_fit};

/// Where the names that have values have such of 128 bits, each expression has one of 128 bits or none.
pub fn a_value_has_128_bits()
    ensures { (names : Path → Option ℤ) (e : Expr) (z : ℤ) → ((path : Path) (y : ℤ) → names path ≡ Some y → is_wide y ≡ true) → numbers_fit e ≡ true
        → value names e ≡ Ok z → is_wide z ≡ true }
{}

/// A chain of operators is refused for its first operand; and behind what is worked out so far for the next operand, for the operator
/// before it, or else for what follows.
pub fn the_first_refusal_from_left_to_right_counts()
    ensures first { (names : Path → Option ℤ) (e : Expr) (es : Operands) (fault : ConstFault) → value names e ≡ Err fault
        → value names (chain e es) ≡ Err fault }
    ensures operand { (names : Path → Option ℤ) (z : ℤ) (op : Operator) (e : Expr) (es : Operands) (fault : ConstFault) → value names e ≡ Err fault
        → values names z (operand op e es) ≡ Err fault }
    ensures operator { (names : Path → Option ℤ) (z y : ℤ) (op : Operator) (e : Expr) (es : Operands) (fault : ConstFault) → value names e ≡ Ok y
        → apply op z y ≡ Err fault → values names z (operand op e es) ≡ Err fault }
    ensures rest { (names : Path → Option ℤ) (z y x : ℤ) (op : Operator) (e : Expr) (es : Operands) → value names e ≡ Ok y → apply op z y ≡ Ok x
        → values names z (operand op e es) ≡ values names x es }
{}

/// Quotients go towards zero: the remainder is less than the divisor, and is zero or has the sign of the dividend.
pub fn a_quotient_and_its_remainder_make_the_dividend()
    ensures parts { (x y q r : ℤ) → apply divided_by x y ≡ Ok q → apply remainder x y ≡ Ok r → (q *ℤ y +ℤ r ≡ x) × (unsigned_abs r < unsigned_abs y) }
    ensures sign { (x y r : ℤ) → apply remainder x y ≡ Ok r
        → (int_lt r (pos 0) ≡ true → int_lt x (pos 0) ≡ true) × (int_lt (pos 0) r ≡ true → int_lt (pos 0) x ≡ true) }
{}
