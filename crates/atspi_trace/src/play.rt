//! A world whose readers are those of their own definitions: what each cause does to it, and the lines of a script done
//! in it. Definitions alone; what the program does is said in them, and `atspi_trace_played` has the law that it is
//! lawful.
