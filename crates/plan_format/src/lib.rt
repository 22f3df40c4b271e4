// The format of a plan's fields (01, "The plan") for the code: the width of each number, where it stands behind its field's tag, and the length of the content.
// specs/Format.antt states the same for the definitions. A size is that of the whole field.
#![tactic(auto)]

// Where the content of a field stands: behind its tag and its content length.
pub const CONTENT: usize = 3;

// The number of a strip or of a desk.
pub const NUMBER_WIDTH: usize = 1;

// A start or a finish.
pub const TIME_WIDTH: usize = 4;

// The figure of a mosaic or of a sorting (02, Req 09).
pub const FIGURE_WIDTH: usize = 8;

pub const FLIGHT_FIGURE_WIDTH: usize = 4;

pub const ORDER_WIDTH: usize = 8;

pub const REFUSAL_WIDTH: usize = 2;

pub const PLACE_WIDTH: usize = 4;

// The heads of a mosaic and of a sorting: the figure.
pub const MOSAIC_HEAD_LENGTH: usize = FIGURE_WIDTH;

pub const MOSAIC_HEAD_SIZE: usize = CONTENT + MOSAIC_HEAD_LENGTH;

pub const SORTING_HEAD_LENGTH: usize = FIGURE_WIDTH;

pub const SORTING_HEAD_SIZE: usize = CONTENT + SORTING_HEAD_LENGTH;

// A batch: its last strip, its mount's start, its finish.
pub const BATCH_START: usize = CONTENT + NUMBER_WIDTH;

pub const BATCH_FINISH: usize = BATCH_START + TIME_WIDTH;

pub const BATCH_SIZE: usize = BATCH_FINISH + TIME_WIDTH;

pub const BATCH_LENGTH: usize = BATCH_SIZE - CONTENT;

// A job: its desk, its number within the desk, the starts of its scan and of its desk job.
pub const JOB_NUMBER: usize = CONTENT + NUMBER_WIDTH;

pub const JOB_SCAN: usize = JOB_NUMBER + NUMBER_WIDTH;

pub const JOB_START: usize = JOB_SCAN + TIME_WIDTH;

pub const JOB_SIZE: usize = JOB_START + TIME_WIDTH;

pub const JOB_LENGTH: usize = JOB_SIZE - CONTENT;

// The head of a flight: the figure, the order number.
pub const FLIGHT_ORDER: usize = CONTENT + FLIGHT_FIGURE_WIDTH;

pub const FLIGHT_HEAD_SIZE: usize = FLIGHT_ORDER + ORDER_WIDTH;

pub const FLIGHT_HEAD_LENGTH: usize = FLIGHT_HEAD_SIZE - CONTENT;

// The passes of a block: their starts.
pub const PASSES_SECOND: usize = CONTENT + TIME_WIDTH;

pub const PASSES_SIZE: usize = PASSES_SECOND + TIME_WIDTH;

pub const PASSES_LENGTH: usize = PASSES_SIZE - CONTENT;

// A refusal: its number, its place.
pub const REFUSAL_PLACE: usize = CONTENT + REFUSAL_WIDTH;

pub const REFUSAL_SIZE: usize = REFUSAL_PLACE + PLACE_WIDTH;

pub const REFUSAL_LENGTH: usize = REFUSAL_SIZE - CONTENT;
