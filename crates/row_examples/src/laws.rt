//! Worked states of the table's rows. Nothing needs them: they show, beside each definition, what it says of some states.

ghost use Rattle.row_examples.specs.Control.{ControlExamples};
ghost use Rattle.row_examples.specs.Stack.{StackExamples};
ghost use Rattle.row_examples.specs.Cell.{CellExamples};
ghost use Rattle.row_examples.specs.Double.{DoubleExamples};
ghost use Rattle.row_examples.specs.MemoryRows.{MemoryRowsExamples};
ghost use Rattle.row_examples.specs.Devices.{DevicesExamples};
ghost use Rattle.row_examples.specs.Numbers.{NumbersExamples};
ghost use Rattle.row_examples.specs.Input.{InputExamples};
ghost use Rattle.row_examples.specs.Compiling.{CompilingExamples};
ghost use Rattle.row_examples.specs.Editor.{EditorExamples};

/// Rows 1 to 27: what defining words made, threads, loops and the return stack.
pub fn control_examples()
    ensures { ControlExamples }
{}

/// Rows 32 to 45: the data stack.
pub fn stack_examples()
    ensures { StackExamples }
{}

/// Rows 48 to 79: sums, quotients, bits and tests.
pub fn cell_examples()
    ensures { CellExamples }
{}

/// Rows 80 to 90: doubles.
pub fn double_examples()
    ensures { DoubleExamples }
{}

/// Rows 96 to 107: memory.
pub fn memory_examples()
    ensures { MemoryRowsExamples }
{}

/// Rows 112 to 121: blocks, keys and lines, and what is shown.
pub fn device_examples()
    ensures { DevicesExamples }
{}

/// Rows 128 to 134: pictures of numbers.
pub fn number_examples()
    ensures { NumbersExamples }
{}

/// Rows 144 to 157: the stream and names.
pub fn input_examples()
    ensures { InputExamples }
{}

/// Rows 168 to 197: what compiling words write.
pub fn compiling_examples()
    ensures { CompilingExamples }
{}

/// Row 200: a line of a screen.
pub fn editor_examples()
    ensures { EditorExamples }
{}
