//! What a certificate is about.

use cert_text::CertHead;
use fux_grid::Exercise;
use penalty_sheet::Sheet;

/// An exercise and a sheet, and the head of a certificate.
#[derive(Clone, Copy)]
pub struct Case<'a> {
    pub exercise: &'a Exercise<'a>,
    pub sheet: &'a Sheet,
    pub head: &'a CertHead,
}
