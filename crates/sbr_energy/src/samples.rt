// Samples and their energies.
ghost use Rattle.std.specs.Prelude.{◌≡◌, ◌+◌, ◌*◌, ◌≤◌, ◌<◌, length};
ghost use Rattle.sbr_qmf.specs.Qmf.{columns, norm_sqr};

use sbr_qmf::Complex;

// The sample of column c and band k.
fn sample(x: &[f64], c: usize, k: usize) -> Complex
    requires { (k < 64) × ((c + 1) * 128 ≤ length x.now) }
    ensures { result ≡ columns x.now c k }
{
    let i = (c * 64 + k) * 2;
    Complex {
        re: x[i],
        im: x[i + 1],
    }
}

// The energy of the sample of column c and band k.
pub fn energy(x: &[f64], c: usize, k: usize) -> f64
    requires { (k < 64) × ((c + 1) * 128 ≤ length x.now) }
    ensures { result ≡ norm_sqr (columns x.now c k) }
{
    sample(x, c, k).norm_sqr()
}
