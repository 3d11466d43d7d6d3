// Laws of the definitions, for the crates above. The functions do nothing: their contracts are the laws.
ghost use Rattle.std.specs.Prelude.{◌≡◌, ◌↔◌, true};
ghost use Rattle.arrow_schema.specs.Column.{PlainSchema};
ghost use Rattle.arrow_schema.specs.Shape.{HaveOneShape};
ghost use Rattle.arrow_schema.specs.OneShape.{have_one_shape};

/// Having one shape is an equivalence of schemas.
pub fn one_shape_is_an_equivalence()
    ensures reflexive { (a : PlainSchema) → HaveOneShape a a }
    ensures symmetric { (a b : PlainSchema) → HaveOneShape a b → HaveOneShape b a }
    ensures transitive { (a b c : PlainSchema) → HaveOneShape a b → HaveOneShape b c → HaveOneShape a c }
{}

/// The test `have_one_shape` is true if and only if two schemas have one shape.
pub fn one_shape_is_decided()
    ensures { (a b : PlainSchema) → (have_one_shape a b ≡ true) ↔ HaveOneShape a b }
{}
