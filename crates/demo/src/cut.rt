// Places are cut, not rounded: 6.9999999 is below 7, and so it is shown.
use std::fmt;
use std::fmt::InlineText;
use std::num::saturating_f64_to_u64;

// A float whose digits after the point are as many as the format's precision says.
#[derive(Clone, Copy)]
pub struct Cut(pub f64);

impl fmt::Display for Cut {
    fn fmt<W: fmt::Write>(&self, f: &mut fmt::Formatter<W>) -> fmt::Result {
        let size = self.0.abs();
        let places = f.precision().unwrap_or(0);
        let scale = (0..places).fold(1.0, |scale, _| 10.0 * scale);
        let whole = saturating_f64_to_u64(size);
        let part = saturating_f64_to_u64(scale * size.fract());
        // At most 20 digits before the point: up to 27 places fit.
        let digits = InlineText::<48>::of(format_args!("{whole}.{part:0places$}"));
        f.pad_integral(self.0 >= 0.0, "", digits.as_str())
    }
}
