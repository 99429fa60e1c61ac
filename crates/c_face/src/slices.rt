// The functions of leaves, on each element of a slice.
ghost use Rattle.std.specs.Prelude.{◌≡◌, ℕ, ◌<◌, length, map, get_or};
ghost use Rattle.words.specs.Product.{product};
ghost use Rattle.words.specs.Rotation.{rotl};
ghost use Rattle.portable_log.specs.Log as Log;
ghost use Rattle.root.specs.Root.{root_of};

// f of each element, in its place.
fn each<T: Copy, F: Fn(T) -> T>(xs: &mut [T], f: F)
    requires { F.IsAlwaysCallable f }
    ensures { (g : T → T) → ((k : ℕ) (d y : T) → k < length xs.old → F.post f (get_or xs.old k d) y → y ≡ g (get_or xs.old k d)) → xs.new ≡ map g xs.old }
{
    for x in xs.iter_mut() {
        *x = f(*x);
    }
}

// The product of each x and `by`.
#[unsafe(no_mangle)]
pub extern "C" fn cild_products(xs: &mut [u64], by: u64)
    ensures { xs.new ≡ map (λ x. product x by) xs.old }
{
    each(xs, |x| words::wrapping_mul(x, by));
}

// Each x rotated left by k.
#[unsafe(no_mangle)]
pub extern "C" fn cild_rotations(xs: &mut [u64], k: u32)
    ensures { xs.new ≡ map (λ x. rotl x k) xs.old }
{
    each(xs, |x| words::rotate_left(x, k));
}

// The logarithm of each x.
#[unsafe(no_mangle)]
pub extern "C" fn cild_plogs(xs: &mut [f64])
    ensures { xs.new ≡ map Log.plog xs.old }
{
    each(xs, |x| portable_log::plog(x));
}

// The root of each x.
#[unsafe(no_mangle)]
pub extern "C" fn cild_roots(xs: &mut [f64])
    ensures { xs.new ≡ map root_of xs.old }
{
    each(xs, |x| root::sqrt(x));
}
