// Settling the module of a listing by a settings file, under a pile of folders.
use crate::refused::report_refused;
use crate::settled::{Settling, report_settled};
use crate::tables::FinishedTables;
use evaluator::Folder;
use fold_report::Pile;
use ir::Sizes;
use layers::{Find, Keep, Whole};
use pipeline_constants::{Finished, Module, Room, Settled};
use settings::{Settings, SettingsError};
use shader_text::{Shader, ShaderError, read_shader};
use std::alloc::{AllocError, Global};
use thiserror::Error;

// Why there is no report.
#[derive(Debug, Drop, Error)]
pub enum SettleReportError {
    #[error(transparent)]
    Listing(#[from] ShaderError),
    #[error(transparent)]
    Settings(#[from] SettingsError),
    #[error("memory ran out")]
    OutOfMemory(#[from(alloc)] AllocError),
}

// What is said of a settling, and whether it was refused.
#[derive(Debug, Drop)]
pub struct Report {
    pub text: String,
    pub is_refused: bool,
}

fn tables_of(finished: &Finished) -> FinishedTables<'_> {
    FinishedTables {
        entries: finished.entries(),
        operands: finished.operands(),
        constants: finished.constants(),
        overrides: finished.overrides(),
        variables: finished.variables(),
        images: finished.handle_table(),
        settled: finished.overrides_constants(),
    }
}

fn told(
    heap: Global,
    settled: &Settled,
    before: &Sizes,
    file: &[u8],
) -> Result<Report, SettleReportError> {
    let settings = Settings::read(file)?;
    let settling = Settling {
        source: settled.source(),
        before,
        settings: &settings,
        tables: tables_of(settled.finished()),
        after: settled.sizes(),
    };
    Ok(Report {
        text: report_settled(heap, settling)?,
        is_refused: false,
    })
}

fn settle<F: Folder>(
    heap: Global,
    shader: Shader,
    file: &[u8],
    folder: &F,
) -> Result<Report, SettleReportError> {
    let before = shader.sizes;
    let module = Module::new(heap, shader.source, before, Room::most())?;
    match module.settle(file, folder) {
        Ok(settled) => told(heap, &settled, &before, file),
        Err(refused) => {
            let source = refused.module.source();
            Ok(Report {
                text: report_refused(heap, source, file, refused.refusal, refused.written)?,
                is_refused: true,
            })
        }
    }
}

// Settles the module of a listing by a settings file under a pile, and says what came of it.
pub fn report_settling(
    heap: Global,
    text: &str,
    file: &[u8],
    pile: Pile,
) -> Result<Report, SettleReportError> {
    let shader = read_shader(heap, text)?;
    let whole = Whole { below: Keep };
    let find = Find { below: Keep };
    match pile {
        Pile::Keep => settle(heap, shader, file, &Keep),
        Pile::KeepWhole => settle(heap, shader, file, &whole),
        Pile::KeepFind => settle(heap, shader, file, &find),
        Pile::KeepWholeFind => settle(heap, shader, file, &Find { below: whole }),
        Pile::KeepFindWhole => settle(heap, shader, file, &Whole { below: find }),
    }
}
