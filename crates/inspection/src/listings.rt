// What is said of a listing.
ghost use Rattle.std.specs.Prelude.{IfOk};
ghost use Rattle.inspection.specs.Verdicts.{Counted};

use crate::errors::InspectionError;
use crate::texts::{body_users, module_users, put_body, put_source, put_verdict};
use crate::verdicts::{Tally, Verdicts, check_shader};
use shader_text::{Shader, read_shader, write_shader};
use std::alloc::{AllocError, Global};
use std::fmt::Write;

#[derive(Drop)]
pub struct Report {
    pub text: String,
    pub tally: Tally,
}

fn put_report(out: &mut String, shader: &Shader, verdicts: &Verdicts) -> Result<(), AllocError> {
    out.push_str("module")?;
    put_verdict(out, &verdicts.module, &module_users(&shader.source))?;
    put_source(out, &shader.source, &shader.sizes)?;
    for (i, (body, verdict)) in shader.bodies.iter().zip(&verdicts.bodies).enumerate() {
        write!(out, "body {i}")?;
        put_verdict(out, verdict, &body_users(body))?;
        put_body(out, body)?;
    }
    Ok(())
}

// Whether the module and each body are well formed, and what their tables hold.
pub fn report_shader(heap: Global, shader: &Shader) -> Result<Report, AllocError>
    ensures { IfOk result (λ r. Counted shader.now r.tally) }
{
    let verdicts = check_shader(heap, shader)?;
    let tally = verdicts.tally();
    let mut text = String::new(heap);
    put_report(&mut text, shader, &verdicts)?;
    writeln!(text, "{tally}")?;
    Ok(Report { text, tally })
}

// The report of a listing.
pub fn report_listing(heap: Global, text: &str) -> Result<Report, InspectionError> {
    let shader = read_shader(heap, text)?;
    Ok(report_shader(heap, &shader)?)
}

// A listing as it is written: the same tables, each item in one form and with its index.
pub fn rewrite_listing(heap: Global, text: &str) -> Result<String, InspectionError> {
    let shader = read_shader(heap, text)?;
    Ok(write_shader(heap, &shader)?)
}
