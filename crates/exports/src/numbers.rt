// The two functions of arithmetic.
ghost use Rattle.std.specs.Prelude.{◌≡◌};
ghost use Rattle.arith.specs.Root.{root};
ghost use Rattle.arith.specs.Fused.{fma};

// The `f32` nearest to the square root of x.
pub fn hosirekar_root(x: f32) -> f32
    ensures { result ≡ root x }
{
    arith::root(x)
}

// a * b + c, rounded once.
pub fn hosirekar_fused(a: f32, b: f32, c: f32) -> f32
    ensures { result ≡ fma a b c }
{
    arith::fused(a, b, c)
}
