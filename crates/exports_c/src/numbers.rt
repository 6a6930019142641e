// The two functions of arithmetic.
ghost use Rattle.std.specs.Prelude.{◌≡◌};
ghost use Rattle.arith.specs.Root.{root};
ghost use Rattle.arith.specs.Fused.{fma};

// The `f32` nearest to the square root of x.
#[unsafe(no_mangle)]
pub extern "C" fn hosirekar_root(x: f32) -> f32
    ensures { result ≡ root x }
{
    exports::numbers::hosirekar_root(x)
}

// a * b + c, rounded once.
#[unsafe(no_mangle)]
pub extern "C" fn hosirekar_fused(a: f32, b: f32, c: f32) -> f32
    ensures { result ≡ fma a b c }
{
    exports::numbers::hosirekar_fused(a, b, c)
}
