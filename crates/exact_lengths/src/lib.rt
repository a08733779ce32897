// Laws alone: the length of no row in range comes near the end of the scale of times.
