//! What holds of the machine, each as the contract of a function that does nothing.

ghost use Rattle.px_machine.specs.OneWorld.{ImagesGiveTheMeaning};

/// Where a module has a meaning on an input, for its turns and the size of its team, the main member of each image that means the
/// module runs to its end, and its end, its output and the buffers that it released are those of the meaning.
pub fn images_give_the_meaning()
    ensures { ImagesGiveTheMeaning }
{}
