use sal_ast::Stage;

/// What stands behind a stage of a chain: the next one, or the end, with the byte of `currentContinuation`.
#[derive(Drop)]
pub enum Turn {
    Next(Stage),
    End(Option<u32>),
}
